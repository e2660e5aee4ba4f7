//! The samples of an image taken as they come, and made the planes of its components (T.81, A.1.1, A.2).
ghost use Rattle.std.specs.Prelude.{◌≡◌, ◌+◌, ◌*◌, ◌≤◌, ◌<◌, ◌==◌, ◌||◌, ◌&&◌, ◌-◌, [], None, OnErr, OnOk, IfOk, length, min, nat_lt, take};
ghost use Rattle.jpg_spec.specs.Geometry.{mcus_down, v_max};
ghost use Rattle.jpg_spec.specs.Segments.{AreQuantisers};
ghost use Rattle.jpg_color.specs.EncodeHead.{table_asked};
ghost use Rattle.jpg_color.specs.Encode.{CanSample, encoded_frame, fault_due};
ghost use Rattle.jpg_color.specs.ImageHead.{IsHeadOf};
ghost use Rattle.jpg_color.specs.SamplerState.{IsWhole, KeepsSampler, row_length, strip_numbers, strip_room};

use crate::encode::head::{colour_of, density_of, frame_of, kept_of, quants_of, table_of};
use crate::encode::image_head::ImageHead;
use crate::encode::rows::numbers;
use crate::encode::strips::{Planes, Strip, Windows, put_strip};
use crate::encode::view::EncodedImage;
use crate::encode::{EncodeStop, Encoding};
use jpg_base::{Bytes, Frame, NoMemory};
use jpg_dct::Divisors;
use jpg_spec_image::ImageInfo;
use std::alloc::Global;
use std::vec::Vec;

/// Takes the samples of an image in pieces, rows from the top, and makes the planes of its components: luminance, and
/// chrominance downsampled, in whole blocks. It keeps the samples of less than an MCU row, and memory is taken only for
/// what was given.
#[derive(Drop)]
pub struct Sampler {
    // Where memory comes from.
    alloc: Global,
    // The size and the colours of the image.
    info: ImageInfo,
    // How it is encoded.
    encoding: Encoding,
    // The frame of its picture.
    frame: Frame,
    // Samples that aren't an MCU row yet.
    pending: Bytes,
    // Room for the rows of one MCU row.
    windows: Windows,
    // The planes of the MCU rows made so far.
    planes: Planes,
    // How many MCU rows were made.
    made: u32,
    // How many of them were dropped again.
    dropped: u32,
    // How many samples of the image are still to come.
    left: usize,
    pub ghost keeps: { KeepsSampler info encoding frame pending planes dropped made left },
}

impl Sampler {
    ghost use Rattle.jpg_spec_image.specs.Images.{sample_count};
    ghost use Rattle.jpg_color.specs.EncodeSampling.{AddsSamples, BeginsSampling, DropsRows, EncodesSampled, HasSampled, MakesOneRow, MakesRow, samples_left};

    /// A sampler of an image with these numbers, encoded like this, that was given no samples. Returns
    /// FractionalFactors with the first component whose ratio to the greatest factors isn't an integer, and then
    /// TooManyBlocks if the padded grids have more than 8388608 blocks. It takes no memory yet.
    #[tactic(auto, using(crate::proofs::EncodedPictures::faults_all))]
    pub fn new(alloc: Global, info: ImageInfo, encoding: Encoding) -> Result<Sampler, EncodeStop>
        requires { CanSample info encoding }
        ensures begins { BeginsSampling info encoding result }
        ensures left { IfOk result (λ s. samples_left s ≡ sample_count info) }
    {
        match frame_of(&info, &encoding) {
            Ok(frame) => Ok(Sampler::begun(alloc, info, encoding, frame)),
            Err(fault) => Err(EncodeStop::Picture(fault)),
        }
    }

    // A sampler with this frame that was given no samples.
    fn begun(alloc: Global, info: ImageInfo, encoding: Encoding, frame: Frame) -> Sampler
        requires can { CanSample info encoding }
        requires frame { frame ≡ encoded_frame info encoding }
        requires none { fault_due info encoding ≡ None }
        ensures sampled { HasSampled info encoding [] result }
        ensures left { samples_left result ≡ sample_count info }
    {
        frame.checked();
        Sampler {
            alloc,
            info,
            encoding,
            frame,
            pending: Bytes::new(alloc),
            windows: Windows::new(alloc),
            planes: no_planes(alloc),
            made: 0,
            dropped: 0,
            left: info.height as usize * row_length(&info),
        }
    }

    /// How many samples of the image are still to come; 0 after NoMemory too.
    pub fn left(&self) -> usize
        ensures { result ≡ samples_left self.now }
    {
        self.left
    }

    /// Takes the next samples, of which there are at most those that are left. After NoMemory none are left; none is
    /// returned for no samples.
    pub fn feed(&mut self, samples: &[u8]) -> Result<(), NoMemory>
        requires { length samples.now ≤ samples_left self.old }
        ensures adds { OnOk result (AddsSamples self.old samples.now self.new) }
        ensures left { OnOk result (samples_left self.new + length samples.now ≡ samples_left self.old) }
        ensures over { OnErr result (samples_left self.new ≡ 0) }
        ensures asked { OnErr result (1 ≤ length samples.now) }
    {
        let mut done = 0;
        while done < samples.len() {
            done += self.take_some(&samples[done..])?;
        }
        Ok(())
    }

    /// Takes the samples, or those up to the end of an MCU row. Returns how many.
    pub(crate) fn take_some(&mut self, samples: &[u8]) -> Result<usize, NoMemory>
        requires some { 1 ≤ length samples.now }
        requires most { length samples.now ≤ samples_left self.old }
        ensures some { IfOk result (λ n. (1 ≤ n) × (n ≤ length samples.now)) }
        ensures all { IfOk result (λ n. n ≡ min (length samples.now) (strip_room self.old.info self.old.frame - length self.old.pending)) }
        ensures adds { IfOk result (λ n. AddsSamples self.old (take n samples.now) self.new) }
        ensures left { IfOk result (λ n. samples_left self.new + n ≡ samples_left self.old) }
        ensures rows { OnOk result (MakesOneRow self.old self.new) }
        ensures over { OnErr result (samples_left self.new ≡ 0) }
    {
        let room = strip_room(&self.info, &self.frame);
        let had = self.pending.as_slice().len();
        let count = samples.len().min(room - had);
        let left = self.left - count;
        self.left = 0;
        self.pending.push_all(&samples[..count])?;
        if !is_complete(had + count, room, left) {
            self.left = left;
            return Ok(count);
        }
        self.make_row()?;
        self.left = left;
        Ok(count)
    }

    // Makes the next MCU row of the pending samples.
    fn make_row(&mut self) -> Result<(), NoMemory>
        requires whole { IsWhole self.old.info self.old.frame self.old.pending self.old.made }
        requires none { self.old.left ≡ 0 }
        ensures makes { OnOk result (MakesRow self.old self.new) }
        ensures none { self.new.left ≡ 0 }
    {
        let info = strip_info(&self.info, &self.frame, self.made);
        put_strip(
            self.alloc,
            &Strip {
                samples: self.pending.as_slice(),
                info: &info,
                frame: &self.frame,
            },
            &mut self.windows,
            &mut self.planes,
        )?;
        self.pending.clear();
        self.made += 1;
        Ok(())
    }

    /// The frame of the picture.
    pub fn frame(&self) -> &Frame
        ensures { result.now ≡ self.now.frame }
    {
        &self.frame
    }

    /// The head of its file.
    pub fn head(&self) -> Result<ImageHead, NoMemory>
        ensures { IfOk result (IsHeadOf self.now.info self.now.encoding) }
    {
        let jfif = density_of(&self.info);
        let kept = kept_of(self.alloc, &jfif)?;
        self.frame.checked();
        Ok(ImageHead {
            frame: self.frame.copy(),
            colour: colour_of(&self.encoding),
            quants: quants_of(&self.encoding),
            kept,
            jfif,
        })
    }

    /// The quantisers of component i, prepared.
    pub(crate) fn divisors(&self, i: usize) -> Divisors
        requires { i < 2 }
        ensures { result ≡ table_asked self.now.encoding i }
    {
        divisors_of(&self.encoding, i)
    }

    /// Whether MCU rows were made that aren't dropped.
    pub(crate) fn has_rows(&self) -> bool
        ensures { result ≡ nat_lt self.now.dropped self.now.made }
    {
        self.made > self.dropped
    }

    /// The planes of these MCU rows.
    pub(crate) fn planes(&self) -> &Planes
        ensures { result.now ≡ self.now.planes }
    {
        &self.planes
    }

    /// How many MCU rows before them were dropped.
    pub(crate) fn dropped(&self) -> u32
        ensures { result ≡ self.now.dropped }
    {
        self.dropped
    }

    /// Drops them.
    pub(crate) fn drop_rows(&mut self)
        ensures { DropsRows self.old self.new }
    {
        self.planes.ys.clear();
        self.planes.cbs.clear();
        self.planes.crs.clear();
        self.dropped = self.made;
    }

    /// The encoded image. Returns NoMemory too if samples are missing, as after NoMemory of `feed`, or MCU rows.
    pub fn finish(self) -> Result<EncodedImage, NoMemory>
        ensures { IfOk result (EncodesSampled self) }
    {
        if !is_all(self.left, self.made, self.dropped, &self.frame) {
            return Err(NoMemory);
        }
        let head = self.head()?;
        let first = divisors_of(&self.encoding, 0);
        let others = divisors_of(&self.encoding, 1);
        Ok(EncodedImage {
            frame: head.frame,
            colour: head.colour,
            quants: head.quants,
            kept: head.kept,
            jfif: head.jfif,
            planes: self.planes,
            first,
            others,
        })
    }
}

// The quantisers of component i, prepared.
fn divisors_of(encoding: &Encoding, i: usize) -> Divisors
    requires { AreQuantisers (table_asked encoding.now i) }
    ensures { result ≡ table_asked encoding.now i }
{
    Divisors::new(&table_of(encoding, i).values())
}

// Whether all MCU rows are made, and none was dropped.
fn is_all(left: usize, made: u32, dropped: u32, frame: &Frame) -> bool
    ensures { result ≡ (dropped == 0 && (made == mcus_down frame.now && left == 0)) }
{
    dropped == 0 && (made == frame.mcus().high && left == 0)
}

// No planes yet.
fn no_planes(alloc: Global) -> Planes
    ensures ys { result.ys.items ≡ [] }
    ensures cbs { result.cbs.items ≡ [] }
    ensures crs { result.crs.items ≡ [] }
{
    Planes {
        ys: Vec::new(alloc),
        cbs: Vec::new(alloc),
        crs: Vec::new(alloc),
    }
}

// How many samples a row of the image has.
fn row_length(info: &ImageInfo) -> usize
    requires { info.now.width ≤ 65500 }
    ensures value { result ≡ row_length info.now }
    ensures few { result ≤ 196500 }
{
    numbers(info.kind) * info.width as usize
}

// How many samples of the image an MCU row is made from.
fn strip_room(info: &ImageInfo, frame: &Frame) -> usize
    requires { info.now.width ≤ 65500 }
    ensures value { result ≡ strip_room info.now frame.now }
    ensures few { result ≤ 6288000 }
{
    8 * frame.v_max() as usize * row_length(info)
}

// Whether these many samples are all that the next MCU row is made from.
fn is_complete(pending: usize, room: usize, left: usize) -> bool
    ensures { result ≡ (pending == room || left == 0) }
{
    pending == room || left == 0
}

// The numbers of the rows that the next MCU row is made from, as an image.
fn strip_info(info: &ImageInfo, frame: &Frame, made: u32) -> ImageInfo
    requires { 8 * v_max frame.now * made ≤ info.now.height }
    ensures { result ≡ strip_numbers info.now frame.now made }
{
    let lines = 8 * u32::from(frame.v_max());
    ImageInfo {
        width: info.width,
        height: lines.min(info.height - lines * made),
        kind: info.kind,
        x_metre: info.x_metre,
        y_metre: info.y_metre,
    }
}
