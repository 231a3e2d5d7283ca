ghost use Rattle.std.specs.Prelude.{◌≡◌, ◌≤◌};

use lv_flat::FlatExpr;
use lv_held::Held;

/// A flat tree with its own width and sign.
pub struct Operand {
    pub expr: Held<FlatExpr>,
    pub width: u32,
    pub signed: bool,
    pub constant: bool,
    ghost some: { 1 ≤ width },
    ghost most: { width ≤ 128 },
}

impl Drop for Operand {
    fn drop(self) {
        let Operand {
            expr,
            width: _,
            signed: _,
            constant: _,
        } = self;
        drop(expr);
    }
}

impl Operand {
    pub fn into_expr(self) -> FlatExpr
        ensures { result ≡ self.expr }
    {
        let Operand {
            expr,
            width: _,
            signed: _,
            constant: _,
        } = self;
        expr.into_inner()
    }

    pub fn into_held(self) -> Held<FlatExpr>
        ensures { result ≡ self.expr }
    {
        let Operand {
            expr,
            width: _,
            signed: _,
            constant: _,
        } = self;
        expr
    }
}
