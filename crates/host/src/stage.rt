// Where in a transaction the frame of a set or delete stands, or that it stands alone.
ghost use Rattle.std.specs.Prelude.{◌≡◌};
ghost use Rattle.host.specs.Requests.{version_at, action_at};

#[derive(Clone, Copy, Debug, PartialEq, Eq)]
pub(crate) enum Stage {
    // in no transaction: its data are applied at once
    Alone,
    // begins a transaction with its data
    Begin,
    // adds its data
    Add,
    // applies what is queued
    Apply,
    // cancels the transaction, by applying no data
    Abandon,
}

impl Stage {
    // The version of its payload: 1 within a transaction.
    pub(crate) fn version(self) -> u8
        ensures { result ≡ version_at self }
    {
        match self {
            Stage::Alone => 0,
            _ => 1,
        }
    }

    // Its action: what the receiver is to do with its data.
    pub(crate) fn action(self) -> u8
        ensures { result ≡ action_at self }
    {
        match self {
            Stage::Alone => 0,
            Stage::Begin => 1,
            Stage::Add => 2,
            Stage::Apply => 3,
            Stage::Abandon => 0,
        }
    }
}
