//! Certificates as they are read and written. Each function does nothing: its contract is the law.
ghost use Rattle.std.specs.Prelude.{◌≡◌, ◌^◌, ◌<◌, ℕ, List, length, slice_get, Some};
ghost use Rattle.lv_cert.specs.declared.cert.Cert.{Cert};
ghost use Rattle.lv_cert.specs.Values.{values_of};
ghost use Rattle.lv_cert.specs.Grammar.{AreRising, IsCertificate, IsWritable};
ghost use Rattle.lv_clauses.specs.Literals.{IsClause};
ghost use Rattle.lv_clauses.specs.Sets.{SetValue};
ghost use Rattle.lv_clauses.specs.Sizes.{IsFew};
ghost use Rattle.lv_clauses.specs.Derivations.{Step, IsDerivation};
ghost use Rattle.lv_product.specs.declared.task.Task.{Task};
ghost use Rattle.lv_product.specs.Queries.{FitsKept};
ghost use Rattle.lv_learner.specs.Confirming.{FitsCert, task_shape};

/// The lines of a derivation can be written beside its set, if each has its literals in order.
pub fn derivations_can_be_written()
    ensures { (set : SetValue) (lines : List Step) → IsFew set → IsDerivation set lines →
        ((k : ℕ) (s : Step) → slice_get lines k ≡ Some s → IsClause s.clause) → length lines < 2 ^ 63 → IsWritable set lines }
{}

/// A certificate that is read for a task's shape fits the task, and a list that fits the task rises as it is written.
pub fn certificates_fit()
    ensures read { (task : Task) (cert : Cert) (bytes : List ℕ) → IsCertificate (task_shape task) (values_of cert) bytes → FitsCert task cert }
    ensures written { (task : Task) (s : List ℕ) → FitsKept task s → AreRising 0 (length task.candidates.items) s }
{}
