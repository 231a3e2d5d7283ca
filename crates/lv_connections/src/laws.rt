//! Laws: each function does nothing.
ghost use Rattle.std.specs.Prelude.{◌≡◌, ℕ, List, Some, Contains};
ghost use Rattle.lv_ast.specs.declared.stmt.Ident.{Ident};
ghost use Rattle.lv_ast.specs.declared.item.Conn.{Conn};
ghost use Rattle.lv_ast.specs.declared.item.Inst.{Inst};
ghost use Rattle.lv_ast.specs.declared.item.Item.TheVariants as i;
ghost use Rattle.lv_ast.specs.declared.item.Module.{Module};
ghost use Rattle.lv_ast.specs.declared.item.Source.{Source};
ghost use Rattle.lv_ast.specs.Names.{Name};
ghost use Rattle.lv_source.specs.Declarations.{of_module};
ghost use Rattle.lv_source.specs.Scopes.{Scope, module_named, instance_scope};
ghost use Rattle.lv_scopes.specs.declared.table.NameTable.{NameTable};
ghost use Rattle.lv_symbols.specs.Frames.{AreOnce};
ghost use Rattle.lv_bindings.specs.declared.table.Table.{Table};
ghost use Rattle.lv_flat.specs.Signals.{Signals};
ghost use Rattle.lv_sinks.specs.declared.port.Port.{Port};
ghost use Rattle.lv_faults.specs.declared.fault.ScopeError.{ScopeError};
ghost use Rattle.lv_faults.specs.Faults.{IsItemFault};
ghost use Rattle.lv_connections.specs.Joined.{HasNames, IsPlainPort, IsInstFault, bound_port};

/// A port that stands for a signal or clock has a number, where each parameter of its module is declared once. So `instance_parts` wants no
/// port's number there.
pub fn ports_are_bound()
    ensures { (S : Signals) (t : Table) (outputs : NameTable) (s : Scope) (settings : List Conn) (inst : Inst) (m : Module) (name : Name) →
        HasNames S t outputs (instance_scope s settings inst m) → IsPlainPort (instance_scope s settings inst m) name → AreOnce (of_module m) →
        (p : Port) × (Some p ≡ bound_port t outputs name) }
{}

/// What is told of an instance is told of its item.
pub fn instance_faults_are_told()
    ensures { (source : Source) (s : Scope) (k : ℕ) (kind : Ident) (settings : List Conn) (insts : List Inst) (m : Module) (inst : Inst) (z : ScopeError) →
        module_named source kind.name ≡ Some m → Contains insts inst → IsInstFault source s k kind settings m inst z →
        IsItemFault source s (k, i.Instance kind settings insts) z }
{}
