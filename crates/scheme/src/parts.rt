// A register and a scheme of it, both valid.
ghost use Rattle.std.specs.Prelude.{◌≡◌};
ghost use Rattle.register.specs.Valid as R;
ghost use Rattle.scheme.specs.Valid.{Valid};
ghost use Rattle.scheme.specs.Scheme.{side};

use super::Scheme;
use register::Register;

// A quadratization of a register's cost. Nothing compares or prints one.
#[derive(Clone, Copy)]
pub struct Quadratization {
    pub register: Register,
    pub scheme: Scheme,
    pub ghost register_valid: { ∥ R.Valid register ∥₁ },
    pub ghost scheme_valid: { Valid register scheme },
}

impl Quadratization {
    // The side of a table over its variables.
    pub fn side(&self) -> usize
        ensures { result ≡ side self.now.register.choices self.now.scheme }
    {
        self.register.choices + self.scheme.products + 1
    }
}
