use crate::answers::ViewAnswer;
use crate::queries::ViewQuery;
use std::alloc::{AllocError, Global};

/// A state that can be asked.
pub trait ChainView {
    ghost use Rattle.std.specs.Prelude.{◌≡◌, IfOk};
    ghost use Rattle.ante_views.specs.declared.queries.ViewQuery.{ViewQuery};
    ghost use Rattle.ante_views.specs.declared.answers.ViewAnswer.{ViewAnswer};
    ghost use Rattle.ante_views.specs.Views.{AsksState};

    // What the newest state answers.
    ghost shows: { Self → ViewQuery → ViewAnswer };

    /// Answers a query on an account or on tables; the chain answers those on itself and on blocks.
    fn store_text(&self, alloc: Global, query: &ViewQuery) -> Result<ViewAnswer, AllocError>
        requires { AsksState query.now }
        ensures { IfOk result (λ answer. answer ≡ shows self.now query.now) };
}
