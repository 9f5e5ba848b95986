//! A law of the definitions, with no code: it stands on the contract of a function whose body is empty.
ghost use Rattle.std.specs.Prelude.{◌≡◌, ◌≢◌, List, ℕ};
ghost use Rattle.ports_core.specs.declared.calling.Calling.{Calling, TheVariants.{Cutters, OwnName}};
ghost use Rattle.operand_core.specs.{
  Reading.{Asks, IsFault},
  declared.{
    operand_fault.{OperandFault.OperandFault, OperandFaultKind.TheVariants.Memory},
    operand.Operand.Operand,
  },
};

/// Words ask for at most one list of operands, and for none if a word is no operand, or if its pattern can't be read or
/// is too large.
pub fn one_reading()
    ensures only { (calling : Calling) (words : List (List ℕ)) (one other : List Operand) → Asks calling words one
        → Asks calling words other → one ≡ other }
    ensures either { (calling : Calling) (words : List (List ℕ)) (operands : List Operand) (fault : OperandFault)
        → Asks calling words operands → IsFault calling words fault → fault.kind ≢ Memory → ⊥ }
{}

/// What words ask for by `cutters csplit`, they also ask for if `csplit` is called by its own name.
pub fn own_name_takes_no_meaning_away()
    ensures { (words : List (List ℕ)) (operands : List Operand) → Asks Cutters words operands
        → Asks OwnName words operands }
{}
