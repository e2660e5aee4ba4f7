//! The samples of an image taken as they come, and encoded MCU row by MCU row, as the data of its one scan (T.81, A.1.1, A.2,
//! F.1.2).
ghost use Rattle.std.specs.Prelude.{◌≡◌, ◌≤◌, ◌+◌, ◌-◌, ℕ, [], IfOk, List, OnOk, length, min, take};
ghost use Rattle.jpg_spec.specs.EncodingLaws.{AreSamples};
ghost use Rattle.jpg_spec_image.specs.declared.image.ImageInfo.{ImageInfo as Numbers};
ghost use Rattle.jpg_color.specs.EncodeSampling.{HasSampled, samples_left};
ghost use Rattle.jpg_color.specs.declared.encode.Encoding.{Encoding as Asked};

use crate::encode::row_view::RowView;
use crate::encode::sampler::Sampler;
use jpg_base::{Bytes, NoMemory, ScanHead};
use jpg_dct::Divisors;
use jpg_huff::EncoderSet;
use jpg_seq::KeptScan;
use std::alloc::Global;

/// Takes the samples of an image in pieces, rows from the top, and writes the data of its one scan into memory. It keeps the
/// samples of less than an MCU row, and the blocks of one.
#[derive(Drop)]
pub struct RowEncoder<'a> {
    // The samples and the planes of an MCU row.
    sampler: Sampler,
    // The quantisers of the first component, prepared.
    first: Divisors,
    // Those of the others.
    others: Divisors,
    // The scan.
    scan: KeptScan<'a>,
    // How many units an MCU row of the scan has.
    units: u64,
}

impl<'a> RowEncoder<'a> {
    ghost use Rattle.jpg_color.specs.EncodeRows.{AddsEncoded, BeginsRows, CanWriteRow, EncodesRows, HasEncoded, IsRowScan, RowScan, WritesRow, row_scan};

    /// An encoder of the image of a sampler that was given no samples, whose file has one scan: with this header, by these
    /// tables, and with a restart marker after each `interval` MCUs (0: none). It has all components, and if there is one, its
    /// vertical factor is 1. It takes no memory yet.
    pub fn new(
        alloc: Global,
        sampler: Sampler,
        head: &'a ScanHead,
        encoders: EncoderSet<'a>,
        interval: u16,
    ) -> RowEncoder<'a>
        requires { IsRowScan sampler.frame (row_scan head.now encoders interval) }
        ensures begins { BeginsRows sampler (row_scan head.now encoders.entry interval) result }
        ensures left { result.sampler.left ≡ sampler.left }
    {
        let frame = sampler.frame();
        frame.checked();
        let units = u64::from(frame.scan_mcus(head).wide) * u64::from(frame.mcu_units(head));
        let scan = KeptScan::new(alloc, frame, head, encoders, interval);
        let first = sampler.divisors(0);
        let others = sampler.divisors(1);
        RowEncoder {
            sampler,
            first,
            others,
            scan,
            units,
        }
    }

    /// How many samples of the image are still to come.
    pub fn left(&self) -> usize
        ensures { result ≡ samples_left self.now.sampler }
    {
        self.sampler.left()
    }

    /// Takes the next samples, of which there are at most those that are left. After NoMemory no more may be taken.
    pub fn feed(&mut self, samples: &[u8]) -> Result<(), NoMemory>
        requires few { length samples.now ≤ samples_left self.old.sampler }
        requires has { (w : RowScan) × (info : Numbers) × (a : Asked) × (given : List ℕ) × HasEncoded w info a given self.old }
        ensures adds { OnOk result (AddsEncoded self.old samples.now self.new) }
        ensures left { OnOk result (samples_left self.new.sampler + length samples.now ≡ samples_left self.old.sampler) }
    {
        let mut done = 0;
        while done < samples.len() {
            done += self.take_some(&samples[done..])?;
        }
        Ok(())
    }

    // Takes the samples, or those up to the end of an MCU row, and writes the row.
    fn take_some(&mut self, samples: &[u8]) -> Result<usize, NoMemory>
        requires some { 1 ≤ length samples.now }
        requires most { length samples.now ≤ samples_left self.old.sampler }
        requires has { (w : RowScan) × (info : Numbers) × (a : Asked) × (given : List ℕ) × HasEncoded w info a given self.old }
        ensures some { IfOk result (λ n. (1 ≤ n) × (n ≤ length samples.now)) }
        ensures adds { IfOk result (λ n. AddsEncoded self.old (take n samples.now) self.new) }
        ensures left { IfOk result (λ n. samples_left self.new.sampler + n ≡ samples_left self.old.sampler) }
    {
        let count = self.sampler.take_some(samples)?;
        if self.sampler.has_rows() {
            self.write_row()?;
        }
        Ok(count)
    }

    // Writes the MCU row that was made.
    fn write_row(&mut self) -> Result<(), NoMemory>
        requires { (w : RowScan) × (info : Numbers) × (a : Asked) × (given : List ℕ) × CanWriteRow w info a given self.old }
        ensures writes { OnOk result (WritesRow self.old self.new) }
        ensures left { samples_left self.new.sampler ≡ samples_left self.old.sampler }
    {
        let view = RowView {
            frame: self.sampler.frame(),
            planes: self.sampler.planes(),
            first: &self.first,
            others: &self.others,
            top: self.sampler.dropped(),
        };
        self.scan.put(&view, self.units)?;
        self.sampler.drop_rows();
        Ok(())
    }

    /// The data of the scan, after all samples. Returns NoMemory too if samples are missing.
    pub fn finish(self) -> Result<Bytes, NoMemory>
        requires { (w : RowScan) × (info : Numbers) × (a : Asked) × (given : List ℕ) × HasEncoded w info a given self }
        ensures { IfOk result (EncodesRows self.entry) }
    {
        if self.sampler.left() > 0 || self.scan.left() > 0 {
            return Err(NoMemory);
        }
        self.scan.finish()
    }
}
