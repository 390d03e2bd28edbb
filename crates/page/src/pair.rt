// A pair of key and value, as a page lists it.
ghost use Rattle.std.specs.Prelude.{◌≡◌, true};
ghost use Rattle.layer.specs.Settings.{is_setting};

use layer::Setting;

// A setting whose value may stand under its key.
#[derive(Clone, Copy)]
pub(crate) struct Pair {
    pub(crate) setting: Setting,
    ghost fit: { is_setting setting.key setting.value ≡ true },
}
