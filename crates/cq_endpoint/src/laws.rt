//! What follows of a closed queue. Each law is the contract of a function that does nothing.
ghost use Rattle.std.specs.Prelude.{◌≡◌, ℕ, List, true};
ghost use Rattle.cq_endpoint.specs.Endings.{HasFinished};
ghost use Rattle.cq_endpoint.specs.Reads.{NextSays};
ghost use Rattle.cq_endpoint.specs.Works.{HasAppended};
ghost use Rattle.cq_endpoint.specs.declared.answers.Next.TheVariants.{Finished};
ghost use Rattle.cq_model.specs.States.{NoneFrom};
ghost use Rattle.cq_model.specs.declared.history.Entry.{Entry};
ghost use Rattle.cq_tail.specs.Tailers.{TailerFacts};
ghost use Rattle.cq_words.specs.Steps.{Extends};
ghost use Rattle.cq_words.specs.Values.{CallerFacts, IsCaller, QueueFacts};
ghost use Rattle.cq_words.specs.Views.{state_seen};
ghost use Rattle.cq_words.specs.declared.view.View.{View};

/// An appender that knows its queue to be closed appends nothing.
pub fn nothing_is_appended_to_a_closed_queue()
    ensures { (queue : QueueFacts) (v w : CallerFacts) (moment : ℕ) (m : List ℕ) (i : ℕ)
        → IsCaller v → v.view.sealed ≡ true → ¬ HasAppended queue v moment m w i }
{}

/// Where `next` is answered `Finished`, the tailer knows that the queue is closed, and in all that it has seen there is no
/// message from its cursor on.
pub fn what_is_finished_has_no_later_message()
    ensures { (queue : QueueFacts) (old new : TailerFacts) → NextSays queue old new Finished → HasFinished new }
{}

/// This is final: whatever the caller sees later, there is no message from that cursor on.
pub fn what_is_finished_stays_so()
    ensures { (v w : View) (es : List Entry) (p : ℕ) → v.sealed ≡ true → Extends v w es → NoneFrom (state_seen v) p
        → NoneFrom (state_seen w) p }
{}
