//! The action of a device on a word: what an interrupt of it does.
//!
//! `tick` and `resume` are built: each other action answers FEATURE_NOT_ENABLED and changes nothing.
//! The word isn't used, and what is kept of the device is written elsewhere.
ghost use Rattle.std.specs.Prelude.{◌≡◌, ◌<◌, length};
ghost use Rattle.tx_types.specs.Limits.{interrupt_limit};
ghost use Rattle.kernel_state.specs.Room.{HasRoom};
ghost use Rattle.kernel_state.specs.Serves.{Serves};
ghost use Rattle.board_core.specs.Action.{acted, clock_advanced, interrupted, resumed_by_name};
ghost use Rattle.board_core.specs.Devices.{device_at};

use crate::parts::Parts;
use board_file::{Action, Board};
use board_values::DevNo;
use thread_calls::resume_object;
use tx_types::{Code, Kind, Name};

impl Parts {
    /// An interrupt of a device of the board with a word: its action is made, and the device keeps the
    /// status.
    pub(crate) fn interrupt(&mut self, board: &Board, d: DevNo, word: u32)
        requires serves { Serves self.old.kernel self.old.memory }
        requires room { HasRoom self.old.kernel }
        requires board { d < length board.now.devices }
        requires device { d < length self.old.devices }
        requires taken { (device_at self.old.devices d).taken < interrupt_limit }
        ensures parts { self.new ≡ interrupted board.now self.old d word }
        ensures serves { Serves self.new.kernel self.new.memory }
    {
        let device = &board.devices.items()[d.number() as usize];
        let status = self.act(device.action, &device.target, word);
        self.devices.note(d, status);
    }

    /// Makes the action of a device, on the object or module of a name, and gives its status.
    /// FEATURE_NOT_ENABLED where the action isn't built.
    fn act(&mut self, action: Action, target: &Name, word: u32) -> Code
        requires serves { Serves self.old.kernel self.old.memory }
        requires room { HasRoom self.old.kernel }
        ensures parts { self.new ≡ (acted self.old action target.now word).parts }
        ensures status { result ≡ (acted self.old action target.now word).status }
        ensures devices { self.new.devices ≡ self.old.devices }
        ensures serves { Serves self.new.kernel self.new.memory }
    {
        let _ = word;
        match action {
            Action::Tick => self.advance_clock(),
            Action::Resume => self.resume_by_name(target),
            _ => Code::FEATURE_NOT_ENABLED,
        }
    }

    /// Makes a tick of the clock.
    #[tactic(auto, unfolding(crate::specs::Action::clock_advanced))]
    fn advance_clock(&mut self) -> Code
        requires serves { Serves self.old.kernel self.old.memory }
        requires room { HasRoom self.old.kernel }
        ensures parts { self.new ≡ (clock_advanced self.old).parts }
        ensures status { result ≡ (clock_advanced self.old).status }
        ensures devices { self.new.devices ≡ self.old.devices }
        ensures serves { Serves self.new.kernel self.new.memory }
    {
        self.kernel.advance_clock(&mut self.memory);
        Code::SUCCESS
    }

    /// Resumes the lowest thread of a name. THREAD_ERROR where there is none.
    #[tactic(auto, unfolding(crate::specs::Action::resumed_by_name))]
    fn resume_by_name(&mut self, name: &Name) -> Code
        requires { Serves self.old.kernel self.old.memory }
        ensures parts { self.new ≡ (resumed_by_name self.old name.now).parts }
        ensures status { result ≡ (resumed_by_name self.old name.now).status }
        ensures devices { self.new.devices ≡ self.old.devices }
        ensures serves { Serves self.new.kernel self.new.memory }
    {
        match self.kernel.objects.find(Kind::Thread, name) {
            Some(t) => resume_object(&mut self.kernel, &mut self.memory, t),
            None => Code::THREAD_ERROR,
        }
    }
}
