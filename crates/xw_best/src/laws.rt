//! A law of the best fills: it does nothing at run time and gives callers a proved fact.
ghost use Rattle.xw_best.specs.Best.{FillsReachDown, NoneReachesUp};

/// A fill with the words of a grade and better is one with those of each lower grade. So if there is none, there is
/// none with those of a greater grade.
pub fn grade_law()
    ensures fills { FillsReachDown }
    ensures none { NoneReachesUp }
{}
