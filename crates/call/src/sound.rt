// A fresh record, whether a record is live, and whether a live record is sound.
ghost use Rattle.std.specs.Prelude.{◌≡◌};
ghost use Rattle.call.specs.Sound.{fields_fit_of, fresh_call, sound_of};
ghost use Rattle.phases.specs.Phase.{live_of};

use crate::Call;
use crate::records::opened;
use flow_meter::meter_fits;
use phases::{Phase, is_live};
use rights::{no_rights, reference_fits, rights_fit};
use services::no_services;

impl Call {
    #[tactic(auto, unfolding(crate::specs::Sound::fresh_call))]
    pub fn fresh() -> Call
        ensures { result ≡ fresh_call }
    {
        opened(0, no_rights(), Phase::Fresh, no_services())
    }

    pub fn live(self) -> bool
        ensures { result ≡ live_of self.phase }
    {
        is_live(self.phase)
    }

    // Whether what a live record holds is in range, both meters included.
    #[tactic(auto, unfolding(crate::specs::Sound::fields_fit_of))]
    fn fields_fit(self) -> bool
        ensures { result ≡ fields_fit_of self }
    {
        reference_fits(self.reference)
            && rights_fit(self.rights)
            && meter_fits(self.meters.calling, self.rights.burst)
            && meter_fits(self.meters.called, self.rights.burst)
    }

    #[tactic(auto, unfolding(crate::specs::Sound::sound_of))]
    pub fn sound(self) -> bool
        ensures { result ≡ sound_of self }
    {
        !self.live() || self.fields_fit()
    }
}
