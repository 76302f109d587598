// The laws of how the program ends.

ghost use Rattle.std.specs.Prelude.{◌≡◌, ◌↔◌, ℕ, List, [], ◌∷◌, Ok, IsErr, Result};
ghost use Rattle.trex_io.specs.Seen.{Seen};
ghost use Rattle.trex_words.specs.declared.asked.Asked.{Asked as AnAsked};
ghost use Rattle.trex_words.specs.declared.asked.RunAsk.{RunAsk as ARunAsk};
ghost use Rattle.trex_words.specs.declared.asked.Usage.{Usage as AUsage};
ghost use Rattle.trex_top.specs.declared.status.Status.{Status as AStatus};
ghost use Rattle.trex_top.specs.Endings.{EntersGates, HasItsCause, IsAmong, IsBadCapture, IsBroken, IsRefused, IsUnfitCapture, LeavesOutput, Suits};
ghost use Rattle.trex_top.specs.Ends.{Ends};
ghost use Rattle.trex_top.specs.Ends.Check.{CheckEnds};
ghost use Rattle.trex_top.specs.Ends.Import.{ImportEnds};
ghost use Rattle.trex_top.specs.Ends.Measured.{MeasuredEnds};
ghost use Rattle.trex_top.specs.Ends.Run.{RunEnds};
ghost use Rattle.trex_top.specs.Ends.Session.{SessionEnds};
ghost use Rattle.trex_top.specs.Sides.{GateSide, Side, Failed, given};

use crate::status::Status;
use trex_pcap::one_reading;

/// Law: what follows from the table by which `trex_main` ends, whatever its ends and its gates are.
pub fn endings_hold<S, O, N, G>()
    // The words have no meaning exactly where the status is Usage.
    ensures usage { (a : Result AnAsked AUsage) (input : Side S) (out : Side O) (notes : Side N) (gates : GateSide G) (s : AStatus)
        → Ends a input out notes gates s → (s ≡ Status.Usage) ↔ IsErr a }
    // A fault has its cause, whatever the ends tell.
    ensures causes { (a : Result AnAsked AUsage) (input : Side S) (out : Side O) (notes : Side N) (gates : GateSide G) (s : AStatus)
        → Ends a input out notes gates s → HasItsCause input out notes s }
    // But for Done, OutFault and NotesFault, and but for a session, the output is left alone.
    ensures unwritten { (a : Result AnAsked AUsage) (input : Side S) (out : Side O) (notes : Side N) (gates : GateSide G) (s : AStatus)
        → Ends a input out notes gates s → LeavesOutput a out s }
    // The gates are told of whole rounds, where a run or a sample is asked for; else none is entered.
    ensures rounds { (a : Result AnAsked AUsage) (input : Side S) (out : Side O) (notes : Side N) (gates : GateSide G) (s : AStatus)
        → Ends a input out notes gates s → EntersGates a gates }
    // A text that breaks a rule is refused, unless the input fails or there is no memory.
    ensures run_refuses { (ask : ARunAsk) (input : Side S) (out : Side O) (notes : Side N) (gates : GateSide G) (s : AStatus)
        → IsRefused (given input) → RunEnds ask input out notes gates s
        → IsAmong s (Status.Refused ∷ Status.ReadFault ∷ Status.Memory ∷ []) }
    ensures check_refuses { (input : Side S) (out : Side O) (notes : Side N) (s : AStatus)
        → IsRefused (given input) → CheckEnds input out notes s
        → IsAmong s (Status.Refused ∷ Status.ReadFault ∷ Status.Memory ∷ []) }
    // A capture with a fault is called bad, whatever is to be written of its records, unless the input fails or there is no memory.
    ensures measuring_refuses { (text : List Seen → List ℕ) (input : Side S) (out : Side O) (notes : Side N) (s : AStatus)
        → IsBadCapture (given input) → MeasuredEnds text input out notes s
        → IsAmong s (Status.BadCapture ∷ Status.ReadFault ∷ Status.Memory ∷ []) }
    ensures import_refuses { (input : Side S) (out : Side O) (notes : Side N) (s : AStatus)
        → IsBadCapture (given input) → ImportEnds input out notes s
        → IsAmong s (Status.BadCapture ∷ Status.ReadFault ∷ Status.Memory ∷ []) }
    // A capture that makes no profile is called unfit, unless the input fails or there is no memory.
    ensures unfit_refuses { (input : Side S) (out : Side O) (notes : Side N) (s : AStatus)
        → IsUnfitCapture (given input) → ImportEnds input out notes s
        → IsAmong s (Status.Unfit ∷ Status.ReadFault ∷ Status.Memory ∷ []) }
    // An input that breaks a bound makes a bad session, unless the input, the output or the notes fail or there is no memory.
    ensures session_breaks { (input : Side S) (out : Side O) (notes : Side N) (s : AStatus)
        → IsBroken (given input) → SessionEnds input out notes s
        → IsAmong s (Status.BadSession ∷ Status.ReadFault ∷ Status.OutFault ∷ Status.NotesFault ∷ Status.Memory ∷ []) }
    // Where the input is what is asked for and nothing fails, what is asked is done, unless there is no memory.
    ensures complete { (a : AnAsked) (input : Side S) (out : Side O) (notes : Side N) (gates : GateSide G) (s : AStatus)
        → Suits a (given input) → ¬ Failed input → ¬ Failed out → ¬ Failed notes → Ends (Ok a) input out notes gates s
        → IsAmong s (Status.Done ∷ Status.Memory ∷ []) }
{
    one_reading();
}
