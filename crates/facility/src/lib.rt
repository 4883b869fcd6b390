// What a Facility element says: one component, and whether its invoke number is in range. `forms` reads its body,
// `filling` writes the element.
#![tactic(auto)]

ghost use Rattle.std.specs.Prelude.{◌≡◌};
ghost use Rattle.facility.specs.Facility.{component_fits};

use rights::Service;

pub mod filling;
pub mod forms;

// Each by the octet that says it. Any octet but 0 reads as preferred.
#[derive(Clone, Copy)]
pub enum Wish {
    Preferred = 0xFF,
    Required = 0,
}

// Each by the octet that says it.
#[derive(Clone, Copy)]
pub enum Refusal {
    ByNetwork = 1,
    ByUser = 2,
}

// A component, each with its invoke number: a service asked for, accepted, or rejected.
#[derive(Clone, Copy)]
pub enum Component {
    Invoke(u8, Service, Wish),
    Accepted(u8),
    Rejected(u8, Refusal),
}

// Whether the invoke number is in range.
pub fn component_fits(c: Component) -> bool
    ensures { result ≡ component_fits c }
{
    match c {
        Component::Invoke(id, ..) | Component::Accepted(id) | Component::Rejected(id, _) => {
            id < 128
        }
    }
}
