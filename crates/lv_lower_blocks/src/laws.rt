ghost use Rattle.std.specs.Prelude.{◌≡◌};
ghost use Rattle.lv_source.specs.Names.{Valuation};
ghost use Rattle.lv_source.specs.Places.{Bit, bit_at};
ghost use Rattle.lv_source.specs.Effect.{applied, left_of};
ghost use Rattle.lv_flat.specs.declared.stmt.FlatStmt.{FlatStmt};
ghost use Rattle.lv_flat.specs.Signals.{Signals};
ghost use Rattle.lv_flat.specs.Executing.{executes};
ghost use Rattle.lv_lower_blocks.specs.Running.{IsUnmixed, writes_from};

/// A law. The writes of a block leave the bit that the block leaves, in any valuation that had it, where not both `=` and `<=` write it.
pub fn writes_leave_bits()
    ensures { (S : Signals) (s : FlatStmt) (v u : Valuation) (b : Bit) → IsUnmixed S s b → bit_at u b ≡ bit_at v b → bit_at (applied u (writes_from S s v)) b ≡ bit_at (left_of (executes S s) v) b }
{}
