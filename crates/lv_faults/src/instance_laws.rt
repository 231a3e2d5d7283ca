//! Laws of items of instances: each function does nothing.
ghost use Rattle.std.specs.Prelude.{◌≡◌, ℕ, List, Some, Contains};
ghost use Rattle.lv_ast.specs.declared.stmt.Ident.{Ident};
ghost use Rattle.lv_ast.specs.declared.item.Conn.{Conn};
ghost use Rattle.lv_ast.specs.declared.item.Inst.{Inst};
ghost use Rattle.lv_ast.specs.declared.item.Item.TheVariants as i;
ghost use Rattle.lv_ast.specs.declared.item.Module.{Module};
ghost use Rattle.lv_ast.specs.declared.item.Source.{Source};
ghost use Rattle.lv_source.specs.Scopes.{Scope, here_at, module_named};
ghost use Rattle.lv_source.specs.ScopeRules.{setting_sites, inst_sites, inst_ports};
ghost use Rattle.lv_source.specs.Sites.{spots};
ghost use Rattle.lv_resolve.specs.Resolved.{IsToldOf};
ghost use Rattle.lv_resolve.specs.declared.error.ResolveError.{ResolveError};
ghost use Rattle.lv_faults.specs.declared.fault.Fault.TheVariants as f;
ghost use Rattle.lv_faults.specs.declared.fault.ScopeError.TheVariants as e;
ghost use Rattle.lv_faults.specs.Faults.{of_node, IsItemFault, IsFaultlessItem};
ghost use Rattle.lv_faults.specs.Instances.{AreFaultlessSettings, IsFaultlessInst};

/// An item of instances has no fault where nothing is told of its module, its settings and each of its instances.
pub fn instances_are_faultless()
    ensures { (source : Source) (s : Scope) (k : ℕ) (kind : Ident) (settings : List Conn) (insts : List Inst) →
        AreFaultlessSettings source s k kind settings insts → ((inst : Inst) → Contains insts inst → IsFaultlessInst source s k kind settings inst) →
        IsFaultlessItem source s (k, i.Instance kind settings insts) }
{}

/// What is told of a node of its settings is told of the item.
pub fn setting_faults_are_told()
    ensures { (source : Source) (s : Scope) (k : ℕ) (kind : Ident) (settings : List Conn) (insts : List Inst) (error : ResolveError) →
        IsToldOf (spots (here_at s k) (setting_sites s s.names settings (module_named source kind.name))) error →
        IsItemFault source s (k, i.Instance kind settings insts) (of_node error) }
{}

/// So is what is told of a node of one of its instances.
pub fn inst_faults_are_told()
    ensures { (source : Source) (s : Scope) (k : ℕ) (kind : Ident) (settings : List Conn) (insts : List Inst) (inst : Inst) (error : ResolveError) →
        Contains insts inst → IsToldOf (spots (here_at s k) (inst_sites source s s.names settings inst (module_named source kind.name))) error →
        IsItemFault source s (k, i.Instance kind settings insts) (of_node error) }
{}

/// And what is told of the ports of one of them.
pub fn inst_ports_are_told()
    ensures { (source : Source) (s : Scope) (k : ℕ) (kind : Ident) (settings : List Conn) (insts : List Inst) (m : Module) (inst : Inst) (place : ℕ) →
        module_named source kind.name ≡ Some m → Contains insts inst → Contains (inst_ports source s s.names settings m inst) place →
        IsItemFault source s (k, i.Instance kind settings insts) (e.Fault (f.Port place)) }
{}
