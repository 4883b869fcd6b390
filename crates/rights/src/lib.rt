// The rights of a call, and the ranges of their fields and of a reference.
#![tactic(auto)]

ghost use Rattle.std.specs.Prelude.{◌≡◌};
ghost use Rattle.rights.specs.Rights.{has_of, rights_fit_of, reference_fits_of, no_rights};

const GREATEST_SERVICES: u8 = 7;

const LEAST_LIMIT: u8 = 3;

const GREATEST_LIMIT: u8 = 131;

pub const GREATEST_BURST: u16 = 255;

pub const GREATEST_REFILL: u16 = 255;

const GREATEST_REFERENCE: u16 = 32767;

// The three services by their numbers.
#[derive(Clone, Copy)]
pub enum Service {
    One = 1,
    Two = 2,
    Three = 3,
}

// services: bit 0 is service 1, bit 1 service 2, bit 2 service 3. It is a number, and no flag for each service, since
// rights with one over 7 can be handed in, and are answered 24. burst is X and refill is Y.
#[derive(Clone, Copy)]
pub struct Rights {
    pub services: u8,
    pub late: bool,
    pub leave: bool,
    pub limit: u8,
    pub burst: u16,
    pub refill: u16,
}

// Whether the rights have a service.
pub fn has(r: Rights, s: Service) -> bool
    ensures { result ≡ has_of r s }
{
    match s {
        Service::One => r.services % 2 == 1,
        Service::Two => r.services / 2 % 2 == 1,
        Service::Three => r.services / 4 % 2 == 1,
    }
}

#[tactic(auto, unfolding(crate::specs::Rights::rights_fit_of))]
pub fn rights_fit(r: Rights) -> bool
    ensures { result ≡ rights_fit_of r }
{
    let services = r.services <= GREATEST_SERVICES;
    let limit = (LEAST_LIMIT..=GREATEST_LIMIT).contains(&r.limit);
    let burst = (1..=GREATEST_BURST).contains(&r.burst);
    let refill = (1..=GREATEST_REFILL).contains(&r.refill);
    services && limit && burst && refill
}

#[tactic(auto, unfolding(crate::specs::Rights::reference_fits_of))]
pub fn reference_fits(n: u16) -> bool
    ensures { result ≡ reference_fits_of n }
{
    (1..=GREATEST_REFERENCE).contains(&n)
}

#[tactic(auto, unfolding(crate::specs::Rights::no_rights))]
pub fn no_rights() -> Rights
    ensures { result ≡ no_rights }
{
    Rights {
        services: 0,
        late: false,
        leave: false,
        limit: 0,
        burst: 0,
        refill: 0,
    }
}
