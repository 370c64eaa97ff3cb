//! Steps of the board: the running thread's next instructions, and the whole call or the fault
//! after them.
//!
//! A step touches what its instruction touches, and no table is looked through. Only a call or a
//! fault can change who runs, so that is asked after them alone.
ghost use Rattle.std.specs.Prelude.{◌≡◌, Some};
ghost use Rattle.kernel_state.specs.Kernel.{thread};
ghost use Rattle.kernel_state.specs.Room.{HasRoom};
ghost use Rattle.kernel_state.specs.Serves.{Serves};
ghost use Rattle.board_core.specs.Burst.{burst_of, hart_at, made, made_of, out_at};
ghost use Rattle.board_core.specs.Step.{after_call, after_fault, ran_on};

use crate::bursts::{BurstEnd, burst};
use crate::parts::Parts;
use call_dispatch::dispatch;
use kernel_state::laws::{
    a_kernel_stays_sound, a_promised_result_may_be_stored, who_runs_is_a_thread,
};
use rv_core::{Cause, Out};
use tx_types::ThreadNo;

impl Parts {
    /// Makes the steps up to the next call or fault, with that, at most the given number, and says
    /// how many; all of them where no thread runs.
    pub(crate) fn make_steps(&mut self, most: u32) -> u32
        requires serves { Serves self.old.kernel self.old.memory }
        requires room { HasRoom self.old.kernel }
        ensures steps { result ≡ (made most self.old).steps }
        ensures parts { self.new ≡ (made most self.old).parts }
        ensures serves { Serves self.new.kernel self.new.memory }
    {
        match self.kernel.running() {
            Some(t) => self.run(t, most),
            None => most,
        }
    }

    /// Makes the steps of the running thread.
    fn run(&mut self, t: ThreadNo, most: u32) -> u32
        requires serves { Serves self.old.kernel self.old.memory }
        requires room { HasRoom self.old.kernel }
        requires runs { self.old.kernel.ready.run ≡ Some t }
        ensures steps { result ≡ (made_of most self.old (Some t)).steps }
        ensures parts { self.new ≡ (made_of most self.old (Some t)).parts }
        ensures serves { Serves self.new.kernel self.new.memory }
    {
        let ran = self.execute(t, most);
        match ran.out {
            Out::Done => return ran.done,
            Out::Call => self.call(t),
            Out::Fault(cause) => self.fault(t, cause),
        }
        ran.done + 1
    }

    /// Executes a thread's code, for its module.
    fn execute(&mut self, t: ThreadNo, most: u32) -> BurstEnd
        requires { Serves self.old.kernel self.old.memory }
        ensures done { result.done ≡ (burst_of self.old t most).done }
        ensures out { result.out ≡ out_at (burst_of self.old t most).end }
        ensures parts { self.new ≡ (let b = burst_of self.old t most in
            ran_on self.old t (hart_at b.end b.hart) b.memory) }
        ensures runs { self.new.kernel.ready ≡ self.old.kernel.ready }
        ensures room { HasRoom self.old.kernel → HasRoom self.new.kernel }
        ensures serves { Serves self.new.kernel self.new.memory }
    {
        a_kernel_stays_sound();
        a_promised_result_may_be_stored();
        let module = self.kernel.module_of(t);
        burst(self.kernel.hart_mut(t), &mut self.memory, module, most)
    }

    /// Serves the call of a thread.
    fn call(&mut self, t: ThreadNo)
        requires serves { Serves self.old.kernel self.old.memory }
        requires room { HasRoom self.old.kernel }
        requires runs { self.old.kernel.ready.run ≡ Some t }
        ensures parts { self.new ≡ after_call self.old t }
        ensures serves { Serves self.new.kernel self.new.memory }
    {
        dispatch(&mut self.kernel, &mut self.memory, t);
    }

    /// Halts the module of a thread whose next instruction can't be executed.
    #[tactic(auto, unfolding(crate::specs::Step::after_fault))]
    fn fault(&mut self, t: ThreadNo, cause: Cause)
        requires serves { Serves self.old.kernel self.old.memory }
        requires runs { self.old.kernel.ready.run ≡ Some t }
        ensures parts { self.new ≡ after_fault self.old t cause }
        ensures serves { Serves self.new.kernel self.new.memory }
    {
        who_runs_is_a_thread();
        let pc = self.kernel.hart(t).pc;
        self.modules
            .fault(&mut self.kernel, &mut self.memory, t, cause, pc);
    }
}
