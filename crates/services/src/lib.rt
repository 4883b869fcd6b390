// What was asked for of each service, what was answered, how the service stands, and what is said of it to a user.
#![tactic(auto)]

ghost use Rattle.std.specs.Prelude.{◌≡◌, Bool, ◌||◌};
ghost use Rattle.services.specs.Standing.{in_force_of, awaits_of, remains_of, no_services};

// One thing for each of the three services.
#[derive(Clone, Copy)]
pub struct ByService<T> {
    pub one: T,
    pub two: T,
    pub three: T,
}

impl<T: Copy> ByService<T> {
    // The same of each service.
    pub fn same(of_each: T) -> ByService<T>
        ensures { result ≡ record { one = of_each; two = of_each; three = of_each } }
    {
        ByService {
            one: of_each,
            two: of_each,
            three: of_each,
        }
    }
}

impl ByService<bool> {
    // Whether it holds of a service.
    pub fn any(self) -> bool
        ensures { result ≡ (self.one || self.two) || self.three }
    {
        self.one || self.two || self.three
    }
}

// What SETUP says of a service. Three values, and no Option of two: `lacking_of`, `asked_standing_of` and the other
// rules of SETUP name each of the three.
#[derive(Clone, Copy)]
pub enum Request {
    Unasked,
    Preferred,
    Required,
}

// What the called side answers. Three values, and no Option of two: `decided_of` and `rejection_of` name each of them.
#[derive(Clone, Copy)]
pub enum Given {
    Silent,
    Accepted,
    Rejected,
}

// How a service stands in a call. A request is open while it is Preferred or Required.
// Unasked is one value of the five, and no None: `in_force_of` and `awaits_of` name each of them.
#[derive(Clone, Copy)]
pub enum Standing {
    Unasked,
    Preferred,
    Required,
    InForce,
    Closed,
}

// What a message says of a service. Nothing is one value of the six, and no None: `silence`, `said_item` and
// `component_for` name it as they name the rest.
#[derive(Clone, Copy)]
pub enum Said {
    Nothing,
    Preferred,
    Required,
    Accepted,
    ByUser,
    ByNetwork,
}

pub fn in_force(s: Standing) -> bool
    ensures { result ≡ in_force_of s }
{
    matches!(s, Standing::InForce)
}

// Whether the request is open.
pub fn awaits(s: Standing) -> bool
    ensures { result ≡ awaits_of s }
{
    matches!(s, Standing::Preferred | Standing::Required)
}

// Whether the service remains after SETUP.
#[tactic(auto, unfolding(crate::specs::Standing::remains_of))]
pub fn remains(s: Standing) -> bool
    ensures { result ≡ remains_of s }
{
    in_force(s) || awaits(s)
}

#[tactic(auto, unfolding(crate::specs::Standing::no_services))]
pub fn no_services() -> ByService<Standing>
    ensures { result ≡ no_services }
{
    ByService::same(Standing::Unasked)
}
