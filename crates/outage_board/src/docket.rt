//! What one crew asks, by the units of the tree.
ghost use Rattle.std.specs.Prelude.{◌≡◌};

use margin_policy::Request;
use std::marker::{Model, PhantomData};
use unit_sets::UnitNo;

/// The requests of a crew, in order. A contract sees their list.
#[derive(Drop)]
pub(crate) struct Docket {
    requests: Vec<Request>,
    // Takes no bytes: a call that moves a request has to be told of the types inside it.
    inside: PhantomData<Option<UnitNo>>,
}

impl Model for Docket {
    ghost use Rattle.std.specs.Prelude.{List};
    ghost use Rattle.margin_policy.specs.declared.request.Request.{Request};

    ghost Value = { List Request };

    ghost view = { λ docket. docket.requests.items };
}

impl Docket {
    pub(crate) fn of(requests: Vec<Request>) -> Docket
        ensures { result ≡ requests.items }
    {
        Docket {
            requests,
            inside: PhantomData,
        }
    }

    pub(crate) fn as_slice(&self) -> &[Request]
        ensures { result.now ≡ self.now }
    {
        self.requests.as_slice()
    }
}
