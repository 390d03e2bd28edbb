// What a request does with its data.
ghost use Rattle.std.specs.Prelude.{◌≡◌};
ghost use Rattle.request.specs.Actions.{joins};

#[derive(Clone, Copy, Debug, PartialEq, Eq)]
pub enum Action {
    // applies them
    Apply,
    // opens a transaction with them
    Open,
    // adds them to the open transaction
    Add,
    // applies what the open transaction has queued; its own are not read
    Close,
}

impl Action {
    // Whether it joins the open transaction.
    pub(crate) fn joins(self) -> bool
        ensures { result ≡ joins self }
    {
        matches!(self, Action::Add | Action::Close)
    }
}
