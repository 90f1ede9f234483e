ghost use Rattle.std.specs.Prelude.{◌≡◌, ◌+◌, ◌<◌, ◌^◌, ℕ};
ghost use Rattle.constant_meaning.specs.ConstantExecution.{IsResultFunction};
ghost use Rattle.constant_meaning.specs.ConstantValue.{IsConstant};
ghost use Rattle.iterate.specs.ConstantRun.{LoneRun};
ghost use Rattle.iterate.specs.declared.constant.EntryResult.{EntryResult};
ghost use Rattle.normal_form.specs.ConstantNorm.{norm};
ghost use Rattle.normal_form.specs.declared.constant.Returning.{Returning};
ghost use Rattle.program.specs.Numbers.{count_expr};
ghost use Rattle.program.specs.declared.graph.Function.{Function};

/// A function has at most one lone run.
pub fn constant_run_is_unique()
    ensures { (fun : ℕ) (f : Function) (r s : EntryResult) → LoneRun fun f r → LoneRun fun f s → r ≡ s }
{}

/// The function of a definition that returns a constant expression is one that `analyse_entry` takes.
pub fn constant_norm_is_taken()
    ensures { (d : Returning) → IsConstant d.value → 1 + count_expr d.value < 2 ^ 32 → IsResultFunction (norm d) }
{}
