//! The ratio of the greatest sampling factors to a component's.
ghost use Rattle.std.specs.Prelude.{◌≡◌, ◌≤◌, ◌/◌, ◌%◌, ◌*◌, ◌||◌, not, ◌==◌, IfOk, IfErr, true, false, IsTrue};

use jpg_spec::Component;

/// How many columns and rows of the image a sample covers.
#[derive(Clone, Copy, Debug, PartialEq, Eq)]
pub struct Ratio {
    pub across: u8,
    pub down: u8,
}

/// The greatest factors aren't multiples of the component's.
#[derive(Clone, Copy, Debug, PartialEq, Eq)]
pub struct FractionalSampling;

impl Ratio {
    /// The ratio of the greatest factors to a component's. Returns FractionalSampling if one of them isn't a
    /// multiple of the component's (T.81, A.1.1).
    pub fn of(component: &Component, h_max: u8, v_max: u8) -> Result<Ratio, FractionalSampling>
        requires across { (1 ≤ component.now.h) × (component.now.h ≤ h_max) × (h_max ≤ 4) }
        requires down { (1 ≤ component.now.v) × (component.now.v ≤ v_max) × (v_max ≤ 4) }
        ensures whole { IfOk result (λ r. (r.across * component.now.h ≡ h_max) × (r.down * component.now.v ≡ v_max)) }
        ensures value { IfOk result (λ r. (r.across ≡ h_max / component.now.h) × (r.down ≡ v_max / component.now.v)) }
        ensures refused { IfErr result (λ e. (not (h_max % component.now.h == 0) || not (v_max % component.now.v == 0)) ≡ true) }
    {
        if h_max % component.h != 0 || v_max % component.v != 0 {
            return Err(FractionalSampling);
        }
        Ok(Ratio {
            across: h_max / component.h,
            down: v_max / component.v,
        })
    }
}
