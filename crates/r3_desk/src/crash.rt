//! The images that a crash of a desk in memory may leave.

ghost use Rattle.std.specs.Prelude.{◌≡◌, ◌+◌, ◌≤◌, length, reverse, vec_capacity, IfOk, IsOk, IsTrue, OnOk};
ghost use Rattle.r3_desk.specs.Disk.{overwritten};
ghost use Rattle.r3_desk.specs.Memory.{state_when, fitting};
ghost use Rattle.r3_desk.specs.Torn.{BeginsIn, CanFollow, crash_image, image_after, left_after, torn_write};

use crate::Torn;
use crate::step::Step;
use std::alloc::{AllocError, Global};

// The image that a crash leaves after so many of the steps over the first image. What the writes wrote stands in
// `written`, one after the other.
pub fn image_left(
    alloc: Global,
    first: &[u8],
    steps: &[Step],
    written: &[u8],
    moment: usize,
    torn: Torn,
) -> Result<Vec<u8>, AllocError>
    requires made { moment ≤ length steps.now }
    requires fitting { IsTrue (fitting first.now (reverse steps.now) written.now) }
    ensures { IfOk result (λ image. image.items ≡ crash_image torn (state_when first.now (reverse steps.now) written.now moment)) }
{
    let mut image = first.to_vec(alloc)?;
    let mut left = first.to_vec(alloc)?;
    let mut from = 0;
    for i in 0..moment {
        let bytes = &written[from..from + steps[i].write_len()];
        step_over(alloc, &mut image, &mut left, steps[i], bytes, torn)?;
        from += bytes.len();
    }
    Ok(left)
}

// Takes the image as read, and the image of a crash, over one step. These are the bytes that it wrote.
fn step_over(
    alloc: Global,
    image: &mut Vec<u8>,
    left: &mut Vec<u8>,
    step: Step,
    bytes: &[u8],
    torn: Torn,
) -> Result<(), AllocError>
    requires { CanFollow torn step (length image.old.items) (length left.old.items) }
    ensures image { OnOk result (image.new.items ≡ image_after step bytes.now image.old.items) }
    ensures left { OnOk result (left.new.items ≡ left_after torn step bytes.now image.old.items left.old.items) }
{
    match step {
        Step::Write { at, .. } => {
            overwrite(image, at, bytes)?;
            tear(alloc, left, at, bytes, torn)
        }
        Step::Sync => {
            *left = image.clone()?;
            Ok(())
        }
        _ => Ok(()),
    }
}

// Writes over what is there and past the end.
pub fn overwrite(image: &mut Vec<u8>, at: usize, bytes: &[u8]) -> Result<(), AllocError>
    requires { at ≤ length image.old.items }
    ensures items { OnOk result (image.new.items ≡ overwritten image.old.items at bytes.now) }
    ensures reserved { length image.old.items + length bytes.now ≤ vec_capacity image.old → IsOk result }
    ensures capacity { vec_capacity image.old ≤ vec_capacity image.new }
{
    let inside = bytes.len().min(image.len() - at);
    image[at..at + inside].copy_from_slice(&bytes[..inside]);
    image.extend_from_slice(&bytes[inside..])
}

// Does to the image of a crash what a write does that isn't synced.
fn tear(
    alloc: Global,
    left: &mut Vec<u8>,
    at: usize,
    bytes: &[u8],
    torn: Torn,
) -> Result<(), AllocError>
    requires { BeginsIn torn at (length left.old.items) }
    ensures { OnOk result (left.new.items ≡ torn_write torn at bytes.now left.old.items) }
{
    match torn {
        Torn::Old => Ok(()),
        Torn::New => overwrite(left, at, bytes),
        Torn::Fill(byte) => {
            let fill = vec![in alloc; byte; bytes.len()]?;
            overwrite(left, at, &fill)
        }
    }
}
