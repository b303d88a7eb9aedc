//! Copies the letters of a word as bytes, several in one move.
ghost use Rattle.std.specs.Prelude.{◌≡◌, ◌+◌, ◌≤◌, ◌++◌, length, take, drop};

use xw_letters::Letter;

/// Copies letters one by one.
fn copy_each(to: &mut [u8], letters: &[Letter])
    requires { length to.old ≡ length letters.now }
    ensures { to.new ≡ letters.now }
{
    for k in 0..letters.len() {
        to[k] = letters[k].byte();
    }
}

/// Copies `N` letters from an index on.
fn copy_part<const N: usize>(to: &mut [u8], letters: &[Letter], at: usize)
    requires same { length to.old ≡ length letters.now }
    requires within { at + N ≤ length letters.now }
    ensures front { take (at + N) to.new ≡ take at to.old ++ take N (drop at letters.now) }
    ensures len { length to.new ≡ length to.old }
{
    let mut bytes = [0; N];
    copy_each(&mut bytes, &letters[at..at + N]);
    to[at..at + N].copy_from_slice(&bytes);
}

/// Copies eight letters or more, eight at a time. The last eight may overlap those before.
fn copy_long(to: &mut [u8], letters: &[Letter])
    requires same { length to.old ≡ length letters.now }
    requires long { 8 ≤ length letters.now }
    ensures { to.new ≡ letters.now }
{
    let last = letters.len() - 8;
    let mut at = 0;
    while at < last {
        copy_part::<8>(to, letters, at);
        at += 8;
    }
    copy_part::<8>(to, letters, last);
}

/// Copies letters over as many bytes.
pub fn copy_letters(to: &mut [u8], letters: &[Letter])
    requires { length to.old ≡ length letters.now }
    ensures { to.new ≡ letters.now }
{
    let len = letters.len();
    if len >= 8 {
        copy_long(to, letters);
    } else if len >= 4 {
        copy_part::<4>(to, letters, 0);
        copy_part::<4>(to, letters, len - 4);
    } else {
        copy_each(to, letters);
    }
}
