ghost use Rattle.regular.specs.Expressions.{expression_wants, expression_barren};
ghost use Rattle.expression.specs.Standing.{matches_stands};

use event::kind::Kind;
use filter::filter::Filter;
use regular::expression::Expression;

/// Wants the lists of an expression's language; a list is barren exactly where no extension is in it.
#[derive(Drop)]
pub struct Matches<K> {
    pub expression: Expression<K>,
}

impl<K: Kind> Filter<K> for Matches<K> {
    ghost wants = { λ f. expression_wants K.Kind.order f.expression };

    ghost barren = { λ f. expression_barren K.Kind.order f.expression };

    ghost fruitless = { λ f. matches_stands K.Kind.order f.expression };

    fn wanted(&self, list: &[K]) -> bool {
        self.expression.wanted(list)
    }

    fn is_barren(&self, list: &[K]) -> bool {
        self.expression.barren(list)
    }
}
