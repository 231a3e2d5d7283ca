//! Laws: each function does nothing.
ghost use Rattle.std.specs.Prelude.{◌≡◌, ℕ, List, [], Some, slice_get};
ghost use Rattle.lv_ast.specs.declared.item.Conn.{Conn};
ghost use Rattle.lv_ast.specs.declared.item.Module.{Module};
ghost use Rattle.lv_source.specs.Names.{Here};
ghost use Rattle.lv_source.specs.Declarations.{Declaration, of_module};
ghost use Rattle.lv_source.specs.Scopes.{Scope, settable_in};
ghost use Rattle.lv_source.specs.ScopeRules.{setting_sites};
ghost use Rattle.lv_source.specs.Sites.{spots};
ghost use Rattle.lv_symbols.specs.Frames.{Frame, AreSoundIn};
ghost use Rattle.lv_links.specs.declared.linked.Linked.{Linked};
ghost use Rattle.lv_links.specs.Linking.{AreLinked};
ghost use Rattle.lv_resolve.specs.Resolved.{AreFaultless};
ghost use Rattle.lv_late.specs.Accepted.{IsFaultlessAt, IsInstance};

/// A declaration of which `declare` tells nothing has no fault of a node, and no range that is not allowed.
pub fn sound_declarations_are_faultless()
    ensures { (f : Frame) (ds : List Declaration) (k : ℕ) (d : Declaration) → AreSoundIn f ds → slice_get ds k ≡ Some d →
        IsFaultlessAt f.scope k d }
{}

/// Settings that are linked once each, of which `declare` tells nothing in the scope of an instance, have no fault of a node.
pub fn sound_settings_are_faultless()
    ensures { (here : Here) (s : Scope) (settings : List Conn) (m : Module) (f : Frame) (ls : List Linked) → IsInstance here s settings m f →
        AreLinked (settable_in m) settings ls → AreSoundIn f (of_module m) →
        AreFaultless (spots here (setting_sites s s.names settings (Some m))) }
{}
