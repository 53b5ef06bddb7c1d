// What an action is: "write of a number, found read, found take".
ghost use Rattle.order.specs.Export.{IsKindOf};

#[derive(Clone, Copy, PartialEq, Eq)]
pub(crate) enum Kind {
    Write,
    Read,
    Take,
}

impl TryFrom<u32> for Kind {
    // Kept: no error type of its own, since `find_order` has one refusal, 22, for all that is wrong.
    type Error = ();

    ghost try_from_gives = { IsKindOf };

    fn try_from(word: u32) -> Result<Self, ()> {
        match word {
            1 => Ok(Kind::Write),
            2 => Ok(Kind::Read),
            3 => Ok(Kind::Take),
            _ => Err(()),
        }
    }
}

#[derive(Clone, Copy)]
pub(crate) struct Action {
    pub(crate) kind: Kind,
    pub(crate) number: u32,
}
