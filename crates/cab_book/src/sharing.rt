//! How the ticks of a round are shared among the passes that bring them.

ghost use Rattle.std.specs.Prelude.{◌≡◌, ◌⊎◌, ◌-◌, ◌/◌, ◌≤◌, ◌+◌};
ghost use Rattle.cab_book.specs.Shares.{read_pass, shares, greater_half, lesser_half};

/// The greater half of some ticks, and the smaller.
fn halves(ticks: u32) -> (u32, u32)
    ensures greater { result.0 ≡ greater_half ticks }
    ensures lesser { result.1 ≡ lesser_half ticks }
{
    (ticks - ticks / 2, ticks / 2)
}

/// The shares of passes 4 to 7 in one, two or four parts.
pub(crate) fn shares_of(parts: u32, ticks: u32) -> [u32; 4]
    requires { (parts ≡ 1) ⊎ (parts ≡ 2) ⊎ (parts ≡ 4) }
    ensures { result ≡ shares parts ticks }
{
    if parts == 1 {
        return [ticks, 0, 0, 0];
    }
    let (greater, lesser) = halves(ticks);
    if parts == 2 {
        return [greater, lesser, 0, 0];
    }
    let (first, second) = halves(greater);
    let (third, fourth) = halves(lesser);
    [first, second, third, fourth]
}

/// The pass that a journal is read to name: passes 5 to 7 bring ticks, as pass 4 does.
pub(crate) fn read_pass(pass: u32) -> u32
    ensures { result ≡ read_pass pass }
{
    if pass >= 5 && pass <= 7 { 4 } else { pass }
}
