ghost use Rattle.std.specs.Prelude.{◌+◌, ◌≤◌, length};

use crate::error::DirectiveError;
use lv_ast::Token;
use sqlite_items::Items;
use std::alloc::Global;

/// At most so many tokens are given and uses of macros made.
const MOST: usize = 500_000;

/// The tokens that are given, and the count of uses of macros that are made.
#[derive(Drop)]
pub struct Output {
    pub list: Items<Token>,
    pub uses: usize,
    ghost few: { length list + uses ≤ 500000 },
}

impl Output {
    ghost use Rattle.std.specs.Prelude.{◌≡◌, []};
    ghost use Rattle.lv_ast.specs.Folds.{one};
    ghost use Rattle.lv_lexer.specs.Readings.{Reads, used};

    pub fn new(alloc: Global) -> Output
        ensures list { result.list ≡ [] }
        ensures uses { result.uses ≡ 0 }
    {
        Output {
            list: Items::new(alloc),
            uses: 0,
        }
    }

    pub fn into_list(self) -> Items<Token>
        ensures { result ≡ self.list }
    {
        let Output { list, uses: _ } = self;
        list
    }

    pub fn give(&mut self, token: Token) -> Result<(), DirectiveError>
        ensures { Reads self.old (one token) result self.new }
    {
        if self.list.len() + self.uses >= MOST {
            return Err(DirectiveError::TooMany(MOST as u64 + 1));
        }
        match self.list.push(token) {
            Ok(()) => Ok(()),
            Err(_) => Err(DirectiveError::NoMemory),
        }
    }

    pub fn count_use(&mut self) -> Result<(), DirectiveError>
        ensures { Reads self.old used result self.new }
    {
        if self.list.len() + self.uses >= MOST {
            return Err(DirectiveError::TooMany(MOST as u64 + 1));
        }
        self.uses += 1;
        Ok(())
    }
}
