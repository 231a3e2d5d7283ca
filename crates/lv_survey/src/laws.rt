//! A law: the function does nothing.
ghost use Rattle.std.specs.Prelude.{◌≡◌, ℕ, ◌+◌, ◌≤◌, List, map, length};
ghost use Rattle.lv_ast.specs.declared.item.Item.{Item};
ghost use Rattle.lv_source.specs.Declarations.{Declaration, of_items};
ghost use Rattle.lv_source.specs.Scopes.{counted_from};
ghost use Rattle.lv_const.specs.declared.consts.Entry.{Entry};
ghost use Rattle.lv_symbols.specs.Making.{parameters_in};
ghost use Rattle.lv_declared.specs.declared.listed.Counted.{Counted};
ghost use Rattle.lv_declared.specs.Listing.{counted};
ghost use Rattle.lv_survey.specs.Counts.{AreEntryCounts, AreCounts};

/// The counts of a scope's entries serve its items, where the last is that of all entries and the items declare no more than there is.
pub fn counts_are_known()
    ensures { (base header : ℕ) (ds : List Declaration) (entries : List Entry) (counts : List ℕ) (items : List Counted) (texts : List Item) →
        AreEntryCounts base ds counts → base + parameters_in ds ≡ length entries → map counted items ≡ counted_from header texts →
        header + length (of_items texts) ≤ length ds → AreCounts entries counts items }
{}
