// Bits of a byte.
ghost use Rattle.std.specs.Prelude.{◌≡◌, ◌≤◌};
ghost use Rattle.rules.specs.Template.{bit};

// Whether bit p of x is 1; there is none at 8.
#[tactic(auto, unfolding(crate::specs::Template::bit))]
pub fn has_bit(x: u8, p: u8) -> bool
    requires { p ≤ 8 }
    ensures { result ≡ bit p x }
{
    (u32::from(x) >> p) % 2 == 1
}
