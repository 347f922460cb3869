//! A write that a transaction keeps.
ghost use Rattle.std.specs.Prelude.{◌≡◌};
ghost use Rattle.expr_lang.specs.Operations.{text_limit};
ghost use Rattle.statements.specs.Texts.{TextsWithin};
ghost use Rattle.statements.specs.Views.{statement_view};

use statements::Statement;
use std::marker::Model;

/// A statement that is told in full, and whose texts have at most 65,536 bytes.
#[derive(Drop)]
pub struct KeptWrite {
    statement: Statement,
}

impl Model for KeptWrite {
    ghost use Rattle.std.specs.Coded.{codes};
    ghost use Rattle.expr_lang.specs.contracts.tree.ExprText as expression;
    ghost use Rattle.expr_lang.specs.Operations.{text_limit};
    ghost use Rattle.statements.specs.Texts.{TextsWithin};
    ghost use Rattle.statements.specs.Views.{statement_view};
    ghost use Rattle.statements.specs.declared.statement.Statement.{Statement};

    ghost Value = { Statement };

    ghost coded = { Prim.hlevel (codes, expression.the_row.coded) };

    ghost view = { λ it. it.statement };

    ghost invariant = { λ it. TextsWithin text_limit (statement_view it.statement) };
}

impl KeptWrite {
    /// A statement to keep. It takes no memory.
    pub fn new(statement: Statement) -> KeptWrite
        requires { TextsWithin text_limit (statement_view statement) }
        ensures { result ≡ statement }
    {
        KeptWrite { statement }
    }

    /// The statement. It does no work.
    pub fn statement(&self) -> &Statement
        ensures value { result.now ≡ self.now }
        ensures texts { TextsWithin text_limit (statement_view self.now) }
    {
        &self.statement
    }
}
