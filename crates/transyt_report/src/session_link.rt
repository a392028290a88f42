//! A link of a session: its card number and its profiles, one value for each step of the cycle, from step 0, in
//! millionths of a vehicle.
ghost use Rattle.std.specs.Prelude.{◌≡◌, ◌<◌, ◌≤◌, length};
ghost use Rattle.transyt_net.specs.Parts.{link_of};
ghost use Rattle.transyt_sweep.specs.Sweeps.{evaluated};

use transyt_session::Session;

/// A link of a session's network.
#[derive(Clone, Copy)]
pub struct SessionLink<'a> {
    /// The session.
    pub session: &'a Session,
    /// The link's place, in card order from 0.
    pub place: usize,
    ghost within: { place < length session.now.net.links },
}

/// The frame of the network is within its ranges. Nothing is read.
fn has_frame(session: &Session)
    ensures few { session.now.net.frame.step_count ≤ 120 }
    ensures some { 1 ≤ session.now.net.frame.sweeps }
{
    let _frame = session.net().frame();
}

impl<'a> SessionLink<'a> {
    /// Its card number.
    pub fn number(&self) -> u32
        ensures { result ≡ (link_of self.now.session.now.net self.now.place).number }
    {
        let net = self.session.net();
        let link = &net.links()[self.place];
        link.number
    }

    /// Its arrivals, before any cut.
    #[tactic(auto, using(crate::proofs::ProfileLaws::arrivals_steps))]
    pub fn arrivals(&self) -> &'a [u64]
        ensures value { result.now
            ≡ (evaluated self.now.session.now.net self.now.place).arrivals }
        ensures steps { length result.now ≡ self.now.session.now.net.frame.step_count }
        ensures few { length result.now ≤ 120 }
    {
        has_frame(self.session);
        self.session.arrivals(self.place)
    }

    /// Its GO.
    #[tactic(auto, using(crate::proofs::ProfileLaws::go_steps))]
    pub fn go(&self) -> &'a [u64]
        ensures value { result.now ≡ (evaluated self.now.session.now.net self.now.place).go }
        ensures steps { length result.now ≡ self.now.session.now.net.frame.step_count }
        ensures few { length result.now ≤ 120 }
    {
        has_frame(self.session);
        self.session.go(self.place)
    }

    /// Its departures.
    #[tactic(auto, using(crate::proofs::ProfileLaws::out_steps, crate::proofs::ProfileLaws::out_is))]
    pub fn out(&self) -> &'a [u64]
        ensures value { result.now ≡ (evaluated self.now.session.now.net self.now.place).out }
        ensures steps { length result.now ≡ self.now.session.now.net.frame.step_count }
        ensures few { length result.now ≤ 120 }
    {
        has_frame(self.session);
        self.session.out(self.place)
    }

    /// Its queue at the end of each step.
    #[tactic(auto, using(crate::proofs::ProfileLaws::queue_steps))]
    pub fn queue(&self) -> &'a [u64]
        ensures value { result.now ≡ (evaluated self.now.session.now.net self.now.place).queue }
        ensures steps { length result.now ≡ self.now.session.now.net.frame.step_count }
        ensures few { length result.now ≤ 120 }
    {
        has_frame(self.session);
        self.session.queue(self.place)
    }
}
