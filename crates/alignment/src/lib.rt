// Where align-content moves the content (compute_block_align_content_offset of the crate's src/compute/block.rs, with its fallback from common/alignment.rs).
#![tactic(auto)]

ghost use Rattle.std.specs.Prelude.{◌≡◌};
ghost use Rattle.alignment.specs.Align.{room_of, align_shift};

use style::AlignContent;

// Safe: negative free space is none.
fn room_of(safe: bool, free: f32) -> f32
    ensures { result ≡ room_of safe free }
{
    if safe {
        if free < 0.0 {
            return 0.0;
        }
    }
    free
}

// The stack is one subject, so words that distribute space act as their fallbacks.
pub fn compute_block_align_content_offset(align: AlignContent, safe: bool, free: f32) -> Option<f32>
    ensures { result ≡ align_shift align safe free }
{
    match align {
        AlignContent::Normal => None,
        AlignContent::Start => None,
        AlignContent::Center => Some(room_of(safe, free) / 2.0),
        AlignContent::End => Some(room_of(safe, free)),
        AlignContent::SpaceBetween => None,
        AlignContent::SpaceAround => Some(room_of(true, free) / 2.0),
        AlignContent::SpaceEvenly => Some(room_of(true, free) / 2.0),
        AlignContent::Stretch => None,
    }
}
