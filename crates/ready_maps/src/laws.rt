//! The laws of preemption-threshold, and what moves leave, for the layers above: each function's
//! contract is a law.
ghost use Rattle.ready_maps.specs.Laws.{MovesKeepTheFacts, ThresholdLaw, HolderJoinsLaw, HolderStaysLaw, GivingWayIsHeld, HolderLeavesLaw};
ghost use Rattle.ready_maps.specs.Members.{ReadyAddsOne, UnreadyTakesOne, YieldKeepsReady, ThresholdKeepsReady, PriorityKeepsReady, ReadyKeepsNumbers, UnreadyKeepsNumbers, YieldKeepsNumbers, ThresholdSetsNumbers, PrioritySetsNumbers};

/// The four facts hold after every list of moves.
pub fn moves_keep_the_facts()
    ensures { MovesKeepTheFacts }
{}

/// In an event that readies threads, and takes out threads that don't run, whoever runs in the end
/// in another's place has a priority below that one's threshold (ThreadX User Guide,
/// "Preemption-Threshold").
pub fn the_threshold_law()
    ensures { ThresholdLaw }
{
    moves_keep_the_facts();
}

/// A thread that joins the holders as it is preempted, or as its threshold is set, is well held, and
/// it stays so as long as it is held and its own numbers stay. Whoever gives way with a threshold
/// below its priority joins, and leaves only to run, or as it is ready no longer.
pub fn the_holder_law()
    ensures joins { HolderJoinsLaw }
    ensures stays { HolderStaysLaw }
    ensures held { GivingWayIsHeld }
    ensures leaves { HolderLeavesLaw }
{}

/// Which threads are ready after a move, and which numbers they have.
pub fn a_move_changes_its_thread_alone()
    ensures ready_adds_one { ReadyAddsOne }
    ensures unready_takes_one { UnreadyTakesOne }
    ensures yield_keeps_ready { YieldKeepsReady }
    ensures threshold_keeps_ready { ThresholdKeepsReady }
    ensures priority_keeps_ready { PriorityKeepsReady }
    ensures ready_keeps_numbers { ReadyKeepsNumbers }
    ensures unready_keeps_numbers { UnreadyKeepsNumbers }
    ensures yield_keeps_numbers { YieldKeepsNumbers }
    ensures threshold_sets_numbers { ThresholdSetsNumbers }
    ensures priority_sets_numbers { PrioritySetsNumbers }
{}
