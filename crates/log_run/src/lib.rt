//! A command that only reads, on a file and its log as one file.
#![tactic(auto)]

ghost use Rattle.std.specs.Prelude.{◌≡◌, ◌≢◌, ◌⊎◌, ◌≤◌, ◌^◌, ◌∷◌, [], false, IfErr, IfOk, OnErr, OnOk, IsTrue, Some};
ghost use Rattle.cipher_profile.specs.Profile.{IsListed};
ghost use Rattle.edge_model.specs.Causes.{Rose};
ghost use Rattle.log_run.specs.Answers.{IsStoppedBy, due_with_log};
ghost use Rattle.log_view.specs.Refused.{IsViewTaken};
ghost use Rattle.log_view.specs.View.{viewed};
ghost use Rattle.sqlcipher_tool.specs.Answer.{PutsLine, is_defect_status};
ghost use Rattle.sqlcipher_tool.specs.Play.{TakesInput};
ghost use Rattle.sqlcipher_tool.specs.Promises.{AnswersOne, AreWordsThat, TakesLines, TellsKeys, WhereTaken};
ghost use Rattle.sqlcipher_tool.specs.Servable.{CanBeServed, IsDoneOrStarved, NoneRose};
ghost use Rattle.sqlcipher_tool.specs.WithLog.{viewed_by};
ghost use Rattle.sqlcipher_tool.specs.Words.{asked_keys, finds, form, texts};

use cipher_profile::Profile;
use edge_model::{Disk, Entropy, Sink, Source};
use log_view::LogView;
use sqlcipher_tool::{MOST_PAGES, Status, conclude_view, run};
use std::alloc::Global;

/// Carries out a command whose words ask for this profile, that of a file which is read with its log: `run` over a view of the two, so
/// that Journal of the disk is the log. Gives the view back, or the disk where none was opened.
pub fn run_with_log<K: Source, S: Sink, E: Entropy, D: Disk + Drop>(
    alloc: Global,
    profile: Profile,
    words: &[&str],
    input: &mut K,
    out: &mut S,
    entropy: &mut E,
    disk: D,
) -> (Status, Result<LogView<D>, D>)
    requires listed { IsListed profile }
    requires asked { viewed_by (form (texts words.now)) ≡ Some profile }
    // Which answer comes: where Main and the log are read as one, that of the file to which they open, else why they are not.
    ensures answer { OnOk result.1 (TellsKeys K.tells (texts words.now) → IsTrue D.tells
        → AnswersOne (due_with_log profile.page_size (texts words.now) (K.left input.old) (D.reads disk)) result.0 S.tells (S.taken out.old) (S.taken out.new)) }
    ensures stopped { OnErr result.1 (IsTrue D.tells
        → IsStoppedBy profile.page_size (2 ^ 20) (D.reads disk) result.0 S.tells (S.taken out.old) (S.taken out.new)) }
    ensures complete { IfOk result.1 (λ view. TellsKeys K.tells (texts words.now) → IsTrue D.tells
        → CanBeServed (texts words.now) (K.left input.old) (viewed profile.page_size (D.reads disk))
        → NoneRose ((K.faults input.old, K.faults input.new) ∷ (S.faults out.old, S.faults out.new)
        ∷ (E.faults entropy.old, E.faults entropy.new) ∷ (D.faults disk, ⟦<LogView<D> as Disk>⟧.faults view) ∷ []) → IsDoneOrStarved result.0) }
    // They are read as one exactly where nothing of theirs is against it, but for a fault and want of memory.
    ensures taken { OnOk result.1 (IsTrue D.tells → IsViewTaken profile.page_size (2 ^ 20) (D.reads disk)) }
    ensures outside { OnErr result.1 (IsTrue D.tells → IsViewTaken profile.page_size (2 ^ 20) (D.reads disk)
        → (result.0 ≡ Status.DiskFault) ⊎ (result.0 ≡ Status.OutOfMemory)) }
    ensures left_same { IfErr result.1 (λ left. IsTrue D.tells → D.reads left ≡ D.reads disk) }

    // When something outside failed. The count of a view is that of the disk below, and how often a call was refused.
    ensures fault { IfOk result.1 (λ view. result.0 ≡ Status.DiskFault → Rose (D.faults disk) (⟦<LogView<D> as Disk>⟧.faults view)) }
    ensures left_fault { IfErr result.1 (λ left. IsTrue D.tells → result.0 ≡ Status.DiskFault → Rose (D.faults disk) (D.faults left)) }
    ensures no_usage { result.0 ≢ Status.Usage }
    ensures input_fault { result.0 ≡ Status.InputFault → Rose (K.faults input.old) (K.faults input.new) × TakesInput (texts words.now) }
    ensures output_fault { result.0 ≡ Status.OutputFault → Rose (S.faults out.old) (S.faults out.new) }
    ensures no_entropy { result.0 ≢ Status.EntropyFault }
    ensures later { IfOk result.1 (λ view. D.faults disk ≤ ⟦<LogView<D> as Disk>⟧.faults view) }
    ensures left_later { IfErr result.1 (λ left. D.faults disk ≤ D.faults left) }
    ensures input_later { K.faults input.old ≤ K.faults input.new }
    ensures output_later { S.faults out.old ≤ S.faults out.new }

    // What is printed, where the input or the disk does not tell, and what is taken and drawn.
    ensures line { IsTrue S.tells → (AreWordsThat finds (texts words.now) → is_defect_status result.0 ≡ false) → PutsLine result.0 (S.taken out.old) (S.taken out.new) }
    ensures input_text { result.0 ≡ Status.InputFault → out.new ≡ out.old }
    ensures takes { OnOk result.1 (IsTrue K.tells
        → WhereTaken (texts words.now) (λ command. TakesLines result.0 (asked_keys command) (K.left input.old) (K.left input.new))) }
    ensures takes_none { (TakesInput (texts words.now) → ⊥) → input.new ≡ input.old }
    ensures left_input { OnErr result.1 (input.new ≡ input.old) }
    ensures draws { entropy.new ≡ entropy.old }
{
    match LogView::open(alloc, disk, profile.page_size, MOST_PAGES) {
        Ok(mut view) => {
            let status = run(alloc, words, input, out, entropy, &mut view);
            (status, Ok(view))
        }
        Err((disk, why)) => (conclude_view(out, why), Err(disk)),
    }
}
