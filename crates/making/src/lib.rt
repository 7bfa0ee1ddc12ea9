// Making a tracker in place: its image is written to the lists that the caller lends.
#![tactic(auto)]

ghost use Rattle.std.specs.Prelude.{◌≡◌};
ghost use Rattle.image.specs.Image.{image_of};
ghost use Rattle.frame.specs.Contract.{made_of};
ghost use Rattle.oc_sort_tracker.specs.New.{defaults};
ghost use Rattle.making.specs.Making.{settings_of, fresh_of, fresh_with, begun};

use frame::{Made, Settings};
use object::Refusal;

// The seven settings as C and Rust pass them; use_byte is 0 or 1.
// Stays: the C interface, which has numbers for flags.
#[repr(C)]
#[derive(Clone, Copy)]
pub struct SettingsImage {
    pub det_thresh: f32,
    pub iou_threshold: f32,
    pub inertia: f32,
    pub max_age: u32,
    pub min_hits: u32,
    pub delta_t: u32,
    pub use_byte: u32,
}

impl TryFrom<SettingsImage> for Settings {
    type Error = Refusal;

    ghost try_from_gives = { λ s r. r ≡ settings_of s };

    // A use_byte other than 0 and 1 is a bad setting.
    fn try_from(settings: SettingsImage) -> Result<Settings, Refusal> {
        if 1 < settings.use_byte {
            return Err(Refusal::BadSetting);
        }
        Ok(Settings {
            det_thresh: settings.det_thresh,
            iou_threshold: settings.iou_threshold,
            inertia: settings.inertia,
            max_age: settings.max_age,
            min_hits: settings.min_hits,
            delta_t: settings.delta_t,
            use_byte: image::is_set(settings.use_byte),
        })
    }
}

// Writes the tracker that was made, or nothing where its settings were refused.
fn begin(wide: &mut [u64; 66], floats: &mut [f32; 10435], words: &mut [u32; 965], made: Made) -> u64
    ensures { (result ≡ (fresh_of made).number) × (image_of wide.new floats.new words.new ≡ begun (image_of wide.old floats.old words.old) (fresh_of made)) }
{
    let number = object::told(made.outcome);
    if number == 0 {
        to_image::put(wide, floats, words, made.tracker);
    }
    number
}

// A tracker with all seven settings, in place: 0, or 2 and the lists as they were.
pub fn with_settings(
    wide: &mut [u64; 66],
    floats: &mut [f32; 10435],
    words: &mut [u32; 965],
    settings: SettingsImage,
) -> u64
    ensures { (result ≡ (fresh_with settings).number) × (image_of wide.new floats.new words.new ≡ begun (image_of wide.old floats.old words.old) (fresh_with settings)) }
{
    match Settings::try_from(settings) {
        Ok(taken) => begin(wide, floats, words, oc_sort_tracker::with_settings(taken)),
        Err(refusal) => u64::from(u8::from(refusal)),
    }
}

// A tracker with the Rust's defaults, in place: 0, or 2 and the lists as they were.
pub fn new(
    wide: &mut [u64; 66],
    floats: &mut [f32; 10435],
    words: &mut [u32; 965],
    det_thresh: f32,
) -> u64
    ensures { (result ≡ (fresh_of (made_of (defaults det_thresh))).number) × (image_of wide.new floats.new words.new ≡ begun (image_of wide.old floats.old words.old) (fresh_of (made_of (defaults det_thresh)))) }
{
    let made = oc_sort_tracker::new(det_thresh);
    begin(wide, floats, words, made)
}
