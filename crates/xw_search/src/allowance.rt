//! How many placements a search may make, and how many it has made.
ghost use Rattle.std.specs.Prelude.{◌≡◌, suc, true, false, ◌+◌, ◌<◌, ◌≤◌};

use xw_feas::progress::News;

/// The placements of a search.
/// - `made`: how many it has made.
/// - `until`: how many it may make before it has to answer `Limit`. A share of all is enough for one of several
///   searches.
/// - `limit`: how many all searches together may make.
///
/// Only `count` and `count_all` raise `made`.
#[derive(Drop)]
pub struct Allowance {
    made: u64,
    until: u64,
    limit: u64,
    pub ghost within: { made ≤ until },
    pub ghost shared: { until ≤ limit },
}

impl Allowance {
    /// An allowance of which nothing is used.
    pub fn new(limit: u64) -> Allowance
        ensures made { result.made ≡ 0 }
        ensures until { result.until ≡ limit }
        ensures limit { result.limit ≡ limit }
    {
        Allowance {
            made: 0,
            until: limit,
            limit,
        }
    }

    /// How many placements all searches together may still make.
    pub fn left(&self) -> u64
        ensures { result + self.now.made ≡ self.now.limit }
    {
        self.limit - self.made
    }

    /// How many placements the search may still make.
    pub fn share(&self) -> u64
        ensures { result + self.now.made ≡ self.now.until }
    {
        self.until - self.made
    }

    /// What a search tells of its placements: how many all searches together have made and may make.
    pub(crate) fn news(&self) -> News
        ensures { result ≡ News.Placed self.now.made self.now.limit }
    {
        News::Placed {
            made: self.made,
            limit: self.limit,
        }
    }

    /// Whether the search may make no more placements.
    pub(crate) fn is_spent(&self) -> bool
        ensures spent { result ≡ true → self.now.made ≡ self.now.until }
        ensures left { result ≡ false → self.now.made < self.now.until }
    {
        self.made == self.until
    }

    /// Lets the next search make as many placements as these.
    pub fn grant(&mut self, share: u64)
        requires { share + self.old.made ≤ self.old.limit }
        ensures made { self.new.made ≡ self.old.made }
        ensures until { self.new.until ≡ self.old.made + share }
        ensures limit { self.new.limit ≡ self.old.limit }
    {
        self.until = self.made + share;
    }

    /// Lets the next search make all placements that are left.
    pub fn grant_all(&mut self)
        ensures made { self.new.made ≡ self.old.made }
        ensures until { self.new.until ≡ self.old.limit }
        ensures limit { self.new.limit ≡ self.old.limit }
    {
        self.until = self.limit;
    }

    /// Counts a placement.
    pub fn count(&mut self)
        requires { self.old.made < self.old.until }
        ensures made { self.new.made ≡ suc self.old.made }
        ensures until { self.new.until ≡ self.old.until }
        ensures limit { self.new.limit ≡ self.old.limit }
    {
        self.made += 1;
    }

    /// Counts all placements that the search may make.
    pub fn count_all(&mut self)
        ensures made { self.new.made ≡ self.old.until }
        ensures until { self.new.until ≡ self.old.until }
        ensures limit { self.new.limit ≡ self.old.limit }
    {
        self.made = self.until;
    }
}
