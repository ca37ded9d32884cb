// Why a call is turned down. The first test that applies gives the reason.
ghost use Rattle.std.specs.Prelude.{◌≡◌, IfErr, is_ok};
ghost use Rattle.second.specs.Working.Refusals.{number_of};

#[derive(Clone, Copy, PartialEq, Eq, Debug)]
pub enum Refusal {
    Degree,
    Length,
    Cell,
    Form,
    Sum,
    Content,
    Seed,
    Hits,
}

// The number that is told of it.
impl From<Refusal> for u64 {
    ghost from_gives = { λ why number. number ≡ number_of why };

    fn from(why: Refusal) -> u64 {
        match why {
            Refusal::Degree => 1,
            Refusal::Length => 3,
            Refusal::Cell => 4,
            Refusal::Form => 5,
            Refusal::Sum => 6,
            Refusal::Content => 7,
            Refusal::Seed => 8,
            Refusal::Hits => 9,
        }
    }
}

// Refused for this reason, unless the fact holds.
pub(crate) fn ask(fact: bool, why: Refusal) -> Result<(), Refusal>
    ensures ok { is_ok result ≡ fact }
    ensures err { IfErr result (λ e. e ≡ why) }
{
    if fact { Ok(()) } else { Err(why) }
}
