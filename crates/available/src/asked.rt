// A field that a template asks for.
ghost use Rattle.std.specs.Prelude.{◌<◌};

// Its column, counted from 0, and its value.
#[derive(Clone, Copy)]
pub struct Asked {
    pub column: usize,
    pub want: u32,
    ghost low: { column < 4 },
}
