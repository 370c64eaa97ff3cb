//! What holds of every log: each function's contract is a law.
//!
//! Their bodies do nothing; a function calls one where its proof needs the law.
ghost use Rattle.std.specs.Prelude.{◌≡◌, ℕ, ◌+◌, ◌*◌, ◌^◌, ◌<◌, ◌≤◌, ◌↔◌, List, [], ◌∷◌, ◌++◌, codes, length, map, replicate, true, Ok};
ghost use Rattle.event_log.specs.Events.{Step, Irq, events_of, interrupts, words_in, words_of};
ghost use Rattle.event_log.specs.Log.{IsHistory, step_count, irq_count, parted, closed, unclosed, with_step, with_steps, with_irq};
ghost use Rattle.event_log.specs.LogIn.{is_history, lines_of, log_in};
ghost use Rattle.event_log.specs.Logged.{logged};
ghost use Rattle.event_log.specs.Reading.{TextsApart, NoBadLine, OneBadLine, ReadsBack, SaysTrue};
ghost use Rattle.event_log.specs.Text.{line_of, text_of};
ghost use Rattle.tx_types.specs.Limits.{device_limit, step_limit, interrupt_limit};
ghost use Rattle.event_log.specs.declared.entry.Entry.{Entry};
ghost use Rattle.event_log.specs.declared.entry.Entry.TheVariants as entry;

/// A history has the one text that its entries' lines make, and no other history has that text. A
/// text is that of a history or has a bad line, not both, and one bad line is the first: `log_in`
/// says which history, or which line, and what it says of bytes has those bytes as its text.
pub fn each_history_has_one_text()
    ensures apart { (devices : ℕ) → TextsApart devices }
    ensures no_bad_line { (devices : ℕ) → NoBadLine devices }
    ensures one_bad_line { (devices : ℕ) → OneBadLine devices }
    ensures read_back { (devices : ℕ) → ReadsBack devices }
    ensures says_true { (devices : ℕ) → SaysTrue devices }
    ensures says_its_text { (devices : ℕ) (bytes : List ℕ) (es : List Entry) →
        log_in devices bytes ≡ Ok es → bytes ≡ text_of es }
{}

/// A history with one step or one interrupt more is the same events and that one after them, and
/// counts one more. Its interrupts are as many as it counts.
pub fn a_history_grows_by_one_event()
    ensures step { (es : List Entry) → events_of (with_step es) ≡ events_of es ++ Step ∷ [] }
    ensures irq { (d w : ℕ) (es : List Entry) →
        events_of (with_irq d w es) ≡ events_of es ++ Irq d w ∷ [] }
    ensures steps_by_step { (es : List Entry) → step_count (with_step es) ≡ step_count es + 1 }
    ensures irqs_by_step { (es : List Entry) → irq_count (with_step es) ≡ irq_count es }
    ensures steps_by_irq { (d w : ℕ) (es : List Entry) →
        step_count (with_irq d w es) ≡ step_count es }
    ensures irqs_by_irq { (d w : ℕ) (es : List Entry) →
        irq_count (with_irq d w es) ≡ irq_count es + 1 }
    ensures interrupts_by_step { (es : List Entry) → interrupts (with_step es) ≡ interrupts es }
    ensures interrupts_by_irq { (d w : ℕ) (es : List Entry) →
        interrupts (with_irq d w es) ≡ interrupts es ++ (d, w) ∷ [] }
    ensures interrupts_counted { (es : List Entry) → length (interrupts es) ≡ irq_count es }
{}

/// A history with n steps more is the same events and n steps after them, counts n steps more, and
/// has the same interrupts and words. It is all the same in how many parts the steps are added.
pub fn a_history_grows_by_steps()
    ensures events { (n : ℕ) (es : List Entry) →
        events_of (with_steps n es) ≡ events_of es ++ replicate n Step }
    ensures steps { (n : ℕ) (es : List Entry) → step_count (with_steps n es) ≡ step_count es + n }
    ensures irqs { (n : ℕ) (es : List Entry) → irq_count (with_steps n es) ≡ irq_count es }
    ensures interrupts { (n : ℕ) (es : List Entry) →
        interrupts (with_steps n es) ≡ interrupts es }
    ensures words { (n device : ℕ) (es : List Entry) →
        words_of device (with_steps n es) ≡ words_of device es }
    ensures parts { (m n : ℕ) (es : List Entry) →
        with_steps (m + n) es ≡ with_steps n (with_steps m es) }
{}

/// A step leaves the words of each device as they are, and an interrupt puts its word last of its
/// device's.
pub fn an_interrupt_is_one_word_more()
    ensures step { (device : ℕ) (es : List Entry) →
        words_of device (with_step es) ≡ words_of device es }
    ensures irq { (device d w : ℕ) (es : List Entry) →
        words_of device (with_irq d w es) ≡ words_of device es ++ words_in device (entry.Irq d w) }
{}

/// An interrupt closes the entry of steps before it and itself: steps leave the closed entries as
/// they are, and all entries but a last one of steps are closed. There are at most two for each
/// interrupt, and they never end in steps.
pub fn an_interrupt_closes_an_entry()
    ensures step { (es : List Entry) → closed (with_step es) ≡ closed es }
    ensures steps { (n : ℕ) (es : List Entry) → closed (with_steps n es) ≡ closed es }
    ensures irq { (d w : ℕ) (es : List Entry) → closed (with_irq d w es) ≡ with_irq d w es }
    ensures whole { (es : List Entry) → es ≡ closed es ++ unclosed es }
    ensures interrupts { (es : List Entry) → interrupts (closed es) ≡ interrupts es }
    ensures few { (es : List Entry) → parted es ≡ true → length (closed es) ≤ 2 * irq_count es }
    ensures no_steps_last { (es got left : List Entry) → parted es ≡ true
        → closed es ≡ got ++ left → interrupts left ≡ [] → closed es ≡ got }
{}

/// A history stays a history where what is recorded keeps the limits, and each prefix of a history
/// is a history. The test `is_history` holds exactly of the histories of a board with the given
/// number of devices.
pub fn a_history_stays_one()
    ensures step { (devices : ℕ) (es : List Entry) → is_history devices es ≡ true
        → step_count es < step_limit → is_history devices (with_step es) ≡ true }
    ensures steps { (devices n : ℕ) (es : List Entry) → is_history devices es ≡ true
        → step_count es + n ≤ step_limit → is_history devices (with_steps n es) ≡ true }
    ensures irq { (devices d w : ℕ) (es : List Entry) → is_history devices es ≡ true
        → d < devices → w < 2 ^ 32 → irq_count es < interrupt_limit
        → is_history devices (with_irq d w es) ≡ true }
    ensures prefix { (devices : ℕ) (es after : List Entry) →
        is_history devices (es ++ after) ≡ true → is_history devices es ≡ true }
    ensures tested { (devices : ℕ) (es : List Entry) →
        is_history devices es ≡ true ↔ IsHistory devices es }
{}

/// The lines of a history's text are those of its entries, one each, whatever follows the text.
pub fn a_text_falls_into_its_lines()
    ensures { (devices : ℕ) (es : List Entry) (rest : List ℕ) → devices ≤ device_limit
        → IsHistory devices es
        → lines_of (text_of es ++ rest) ≡ map line_of es ++ lines_of rest }
{}

/// Where a run's text is the text of a history, the line `report`, and anything after it, the lines
/// before the first line `report` are read as that history.
pub fn a_log_is_read_out_of_a_run()
    ensures { (devices : ℕ) (es : List Entry) (more : List ℕ) → devices ≤ device_limit
        → IsHistory devices es
        → logged devices (text_of es ++ (codes "report\n" ++ more)) ≡ es }
{}
