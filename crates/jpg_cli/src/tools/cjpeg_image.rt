//! The image of an input, read and encoded (the manual of cjpeg). The samples of PNM, and those of Targa whose rows come from
//! the top, become the data of the file's one scan as they come, or planes.
ghost use Rattle.std.specs.Prelude.{◌≡◌, ◌≤◌, ◌++◌, Bool, IfErr, IfOk, IfSome, List, None, OnOk, Some, length, true, ℕ};
ghost use Rattle.jpg_spec_words.specs.declared.answers.Why.TheVariants as why;
ghost use Rattle.jpg_transform.specs.Planned.{scans_view};
ghost use Rattle.jpg_color.specs.Encode.{image_view};
ghost use Rattle.jpg_spec.specs.Geometry.{Frame as FrameOf};
ghost use Rattle.jpg_spec.specs.Scan.{Blocks};
ghost use Rattle.jpg_spec.specs.Segments.{standard_limits};
ghost use Rattle.jpg_huff.specs.Encoder.{AreEncodersOf};
ghost use Rattle.jpg_file.specs.Write.WriteFile.{IsAllOf, IsSole, CanWriteFile};
ghost use Rattle.jpg_spec_image.specs.declared.image.ImageInfo.{ImageInfo as Numbers};
ghost use Rattle.jpg_color.specs.EncodeRows.{RowScan};
ghost use Rattle.jpg_color.specs.EncodeSampling.{samples_left};
ghost use Rattle.jpg_color.specs.ImageEncoder.{HasTaken, encoder_left};
ghost use Rattle.jpg_color.specs.ImageHead.{head_parts};
ghost use Rattle.jpg_color.specs.declared.encode.Encoding.{Encoding as Asked};
ghost use Rattle.jpg_color.specs.declared.encode.image_encoder.ImageEncoder.{ImageEncoder as Encoder};
ghost use Rattle.jpg_color.specs.declared.encode.image_encoder.ImageEncoder.TheVariants as encoder;
ghost use Rattle.jpg_pnm_bmp.specs.Made.{IsRightImage};
ghost use Rattle.jpg_cli.specs.Tools.EncodedRead.{EncodedRead, Encodes, EndsEncoding};
ghost use Rattle.jpg_cli.specs.Tools.ImageWritten.{IsPlanOf, why_not_encoded};
ghost use Rattle.jpg_desk.specs.ImageSource.{HasFed, HasFedSome, source_samples};
ghost use Rattle.jpg_desk.specs.ImageTaken.{is_targa};
ghost use Rattle.jpg_desk.specs.Pump.{TakesEnd, TakesPiece, of_reader};
ghost use Rattle.jpg_cli.specs.Tools.SamplesFed.{AreAll, AreGiven, AreSomeGiven, BeginsSource, CanGoOn, EndsData, EndsPlanes, EndsRows, FeedsAll, FeedsRest, FinishesImage, FinishesPlanes, GivesData, GivesRest, GoesOn, GoesOnAsPlanes, GoesOnAsRows, GoesOnScan, HasSomeTaken, IsOneScanFor, IsPlannedFor, IsSamplerFor, TakesSome, TellsNumbers, has_frame_rows, samples_reader};
ghost use Rattle.jpg_cli.specs.Tools.EncodingAsked.{asked_of, encoding_by};
ghost use Rattle.jpg_desk.specs.Stays.{Keeps, OnlyReads};

use crate::tools::cjpeg_encoding::encoding_of;
use jpg_base::{Bytes, Desk, Frame, NoMemory, Put, QuantTable};
use jpg_color::{EncodeStop, ImageEncoder, ImageHead, RowEncoder, Sampler};
use jpg_desk::{
    EncodedPicture, EncodedRows, ImageSamples, ImageSource, OneScan, PieceSink, Tables, pump_on,
    read_rest, read_source,
};
use jpg_file::{Plan, SoleScan, sole_scan};
use jpg_huff::{EncoderPlaces, EncoderSet, TableSet};
use jpg_markers::OutHead;
use jpg_pnm_bmp::Image;
use jpg_scans::Script;
use jpg_spec::{Copying, Fault, FaultAt, Limits};
use jpg_spec_image::ImageInfo;
use jpg_spec_words::{Which, Why};
use jpg_transform::{Scans, counted, script_due};
use jpg_words::EncodeWords;
use std::alloc::Global;
use std::boxed::Box;

/// The image of the input, encoded as the words ask for it. The file is read in pieces of at most 16,384 bytes, up to
/// the one with its last sample or its first fault; a fault of its factors and grids comes after all faults of the
/// file.
#[tactic(auto, using(crate::proofs::Encoding::EncodedRead::encoded_from))]
#[inline(never)]
pub fn read_encoded<D: Desk>(
    alloc: Global,
    words: &EncodeWords,
    scans: &Scans,
    tables: Option<&Tables>,
    desk: &mut D,
) -> Result<EncodedPicture, Why>
    ensures kept { Keeps (D.state desk.old) (D.state desk.new) }
    ensures read { EncodedRead words.now.targa (encoding_by words.now (scans_view scans.now) tables.entry) words.now.files.input (D.state desk.old) result (D.state desk.new) }
{
    match desk.open(&words.files.input) {
        Put::Failed => Err(Why::OpenFault(Which::Input)),
        Put::Done => take_encoded(alloc, words, scans, tables, desk),
    }
}

// The image of the open input.
fn take_encoded<D: Desk>(
    alloc: Global,
    words: &EncodeWords,
    scans: &Scans,
    tables: Option<&Tables>,
    desk: &mut D,
) -> Result<EncodedPicture, Why>
    requires open { (D.state desk.old).input_open ≡ true }
    ensures kept { OnlyReads (D.state desk.old) (D.state desk.new) }
    ensures read { EndsEncoding words.now.targa (encoding_by words.now (scans_view scans.now) tables.entry) (D.state desk.old) result (D.state desk.new) }
{
    let reader = match read_source(alloc, words.targa, desk) {
        Ok(reader) => reader,
        Err(why) => return Err(why),
    };
    if reader.is_read() {
        return encode_whole(alloc, &reader.take(), words, scans, tables);
    }
    match sampler_for(alloc, &reader, words, scans, tables) {
        Some(sampler) => match one_scan(alloc, &sampler, words, scans) {
            Some(file) => encode_rows(alloc, reader, sampler, file, desk),
            None => encode_planes(alloc, reader, ImageEncoder::Planes(sampler), desk),
        },
        None => match read_rest(reader, desk) {
            Ok(image) => encode_whole(alloc, &image, words, scans, tables),
            Err(why) => Err(why),
        },
    }
}

// The image that was read, encoded.
fn encode_whole(
    alloc: Global,
    image: &Image,
    words: &EncodeWords,
    scans: &Scans,
    tables: Option<&Tables>,
) -> Result<EncodedPicture, Why>
    requires { IsRightImage (image_view image.now) }
    ensures { Encodes (asked_of words.now (scans_view scans.now) tables.entry image.now) (image_view image.now) result }
{
    counted(words.restart);
    let encoding = encoding_of(words, scans, tables, image.info.kind);
    match Sampler::new(alloc, image.info, encoding) {
        Err(stop) => Err(why_not_encoded(stop)),
        Ok(sampler) => {
            let mut sampler = sampler;
            match sampler.feed(image.samples.as_slice()) {
                Err(_) => Err(Why::NoMemory),
                Ok(()) => finish(sampler),
            }
        }
    }
}

/// Why there is no encoded image.
pub fn why_not_encoded(stop: EncodeStop) -> Why
    ensures { result ≡ why_not_encoded stop }
{
    match stop {
        EncodeStop::Picture(fault) => Why::Picture(fault),
        EncodeStop::NoMemory => Why::NoMemory,
    }
}

// A sampler that was given nothing, if the rest of the image's samples can be given as the file is read, and the image has
// no fault of its factors and grids.
fn sampler_for(
    alloc: Global,
    reader: &ImageSource,
    words: &EncodeWords,
    scans: &Scans,
    tables: Option<&Tables>,
) -> Option<Sampler>
    requires { HasFedSome words.now.targa reader.now }
    ensures begins { IfSome result (BeginsSource words.now.targa (encoding_by words.now (scans_view scans.now) tables.entry) reader.now) }
    ensures few { IfSome result (λ s. length (source_samples reader.now) ≤ samples_left s) }
{
    let Some(info) = numbers_of(reader) else {
        return None;
    };
    counted(words.restart);
    let encoding = encoding_of(words, scans, tables, info.kind);
    match Sampler::new(alloc, info, encoding) {
        Ok(sampler) => Some(sampler),
        Err(_) => None,
    }
}

// The numbers of the image, if its samples can be given as the file is read: the bytes that follow are their rest, or a
// reader gives them.
fn numbers_of(reader: &ImageSource) -> Option<ImageInfo>
    ensures { IfSome result (TellsNumbers reader.now) }
{
    match reader.plain() {
        Some(info) => Some(info),
        None => reader.gives(),
    }
}

// The image whose first samples the reader has, and whose others come as the file is read, encoded as planes.
fn encode_planes<'a, D: Desk>(
    alloc: Global,
    reader: ImageSource,
    encoder: ImageEncoder<'a>,
    desk: &mut D,
) -> Result<EncodedPicture, Why>
    requires open { (D.state desk.old).input_open ≡ true }
    requires few { length (source_samples reader) ≤ encoder_left encoder }
    requires goes { GoesOnAsPlanes reader encoder (D.state desk.old) }
    ensures { EndsPlanes reader encoder.entry (D.state desk.old) result (D.state desk.new) }
{
    match feed_all(alloc, reader, encoder, desk) {
        Err(why) => Err(why),
        Ok(encoder) => finish_planes(encoder),
    }
}

// The encoded image of an encoder that was given all samples as planes.
fn finish_planes(encoder: ImageEncoder<'_>) -> Result<EncodedPicture, Why>
    requires { (info : Numbers) × (a : Asked) × (samples : List ℕ) × HasTaken None info a samples encoder }
    ensures { FinishesPlanes encoder.entry result }
{
    match encoder {
        ImageEncoder::Planes(sampler) => finish(sampler),
        ImageEncoder::Rows(_) => unreachable!(),
    }
}

// The image whose first samples the reader has, and whose others come as the file is read, encoded MCU row by MCU row as
// the data of the one scan of this file.
#[inline(never)]
fn encode_rows<D: Desk>(
    alloc: Global,
    reader: ImageSource,
    sampler: Sampler,
    file: OneScan,
    desk: &mut D,
) -> Result<EncodedPicture, Why>
    requires open { (D.state desk.old).input_open ≡ true }
    requires few { length (source_samples reader) ≤ samples_left sampler }
    requires goes { GoesOnAsRows reader sampler file (D.state desk.old) }
    ensures { EndsRows reader sampler file (D.state desk.old) result (D.state desk.new) }
{
    let scan = file.scan.as_ref();
    let Ok(places) = places_for(alloc, &scan.tables) else {
        return Err(Why::NoMemory);
    };
    let encoders = EncoderSet::new(&scan.tables, places.as_ref());
    let rows = RowEncoder::new(alloc, sampler, &scan.due.head, encoders, scan.due.interval);
    match rows_data(alloc, reader, ImageEncoder::Rows(rows), desk) {
        Err(why) => Err(why),
        Ok(bytes) => Ok(EncodedPicture::Rows(EncodedRows { file, bytes })),
    }
}

// The data of an encoder that has no samples yet, and is given those that the reader has and those that come.
fn rows_data<'a, D: Desk>(
    alloc: Global,
    reader: ImageSource,
    encoder: ImageEncoder<'a>,
    desk: &mut D,
) -> Result<Bytes, Why>
    requires open { (D.state desk.old).input_open ≡ true }
    requires few { length (source_samples reader) ≤ encoder_left encoder }
    requires goes { GoesOnScan reader encoder (D.state desk.old) }
    ensures { EndsData reader encoder.entry (D.state desk.old) result (D.state desk.new) }
{
    match feed_all(alloc, reader, encoder, desk) {
        Err(why) => Err(why),
        Ok(encoder) => data_of(encoder),
    }
}

// The data of an encoder that was given all samples.
fn data_of(encoder: ImageEncoder<'_>) -> Result<Bytes, Why>
    requires { (w : RowScan) × (info : Numbers) × (a : Asked) × (samples : List ℕ) × HasTaken (Some w) info a samples encoder }
    ensures gives { IfOk result (GivesData encoder.entry) }
    ensures memory { IfErr result (λ e. e ≡ why.NoMemory) }
{
    match encoder {
        ImageEncoder::Rows(rows) => match rows.finish() {
            Ok(bytes) => Ok(bytes),
            Err(_) => Err(Why::NoMemory),
        },
        ImageEncoder::Planes(_) => unreachable!(),
    }
}

// How the file of the image of a sampler is written, if it has one scan of typical tables whose rows of MCUs are those of
// the frame. Otherwise, and where there is no memory for that, None.
#[inline(never)]
fn one_scan(alloc: Global, sampler: &Sampler, words: &EncodeWords, scans: &Scans) -> Option<OneScan>
    requires { IsSamplerFor words.now (scans_view scans.now) sampler.now }
    ensures { IfSome result (IsOneScanFor words.now (scans_view scans.now) sampler.now) }
{
    let Ok(head) = sampler.head() else {
        return None;
    };
    if !has_rows(&head.frame) {
        return None;
    }
    let plan = plan_for(alloc, &head, words, scans)?;
    let scan = scan_for(alloc, plan.as_ref())?;
    Some(OneScan {
        plan,
        kept: head.kept,
        scan,
    })
}

// How the file with this head is written in these scans, if they are possible and there is memory for it.
#[inline(never)]
fn plan_for(
    alloc: Global,
    head: &ImageHead,
    words: &EncodeWords,
    scans: &Scans,
) -> Option<Box<Plan, Global>>
    ensures { IfSome result (λ p. IsPlannedFor words.now (scans_view scans.now) head.now p.value) }
{
    let script = script_due(scans, &head.frame, head.colour);
    let Ok(()) = script.check(&head.frame) else {
        return None;
    };
    let Ok(plan) = Box::new(alloc, plan_of_head(head, script, words)) else {
        return None;
    };
    Some(plan)
}

// What its only scan is written with, if it has one of typical tables and there is memory for it.
#[inline(never)]
fn scan_for(alloc: Global, plan: &Plan) -> Option<Box<SoleScan, Global>>
    requires { (kept : List (ℕ × List ℕ)) × (f : FrameOf) × (blocks : Blocks) × CanWriteFile plan.now kept f blocks }
    ensures sole { IfSome result (λ s. IsSole plan.now s.value) }
    ensures all { IfSome result (λ s. IsAllOf plan.now s.value) }
{
    let Ok(scan) = Box::new(alloc, sole_scan(plan)?) else {
        return None;
    };
    Some(scan)
}

// The encoders of a set of tables.
#[inline(never)]
fn places_for(alloc: Global, tables: &TableSet) -> Result<Box<EncoderPlaces, Global>, NoMemory>
    ensures { IfOk result (λ p. AreEncodersOf tables.now p.value.ac) }
{
    let Ok(places) = Box::new(alloc, EncoderPlaces::new()) else {
        return Err(NoMemory);
    };
    let mut places = places;
    places.fill(tables);
    Ok(places)
}

// Whether the rows of MCUs of a scan of all components are those of the frame: where there is one component, its vertical
// factor is 1 (T.81, A.2.2).
fn has_rows(frame: &Frame) -> bool
    ensures { result ≡ has_frame_rows frame.now }
{
    frame.count() != 1 || frame.component(0).v == 1
}

// How the file with this head is written.
fn plan_of_head(head: &ImageHead, script: Script, words: &EncodeWords) -> Plan
    ensures { (blocks : Blocks) → IsPlanOf words.now (head_parts head.now blocks) script result }
{
    head.frame.checked();
    Plan {
        out: OutHead {
            frame: head.frame.copy(),
            colour: head.colour,
            quants: QuantTable::copied(head.quants.as_slice()),
            jfif: head.jfif,
            copying: Copying::None,
        },
        script,
        huffman: words.huffman,
        restart: words.restart,
    }
}

// The encoded image, all samples of which were given.
fn finish(sampler: Sampler) -> Result<EncodedPicture, Why>
    ensures { FinishesImage sampler result }
{
    match sampler.finish() {
        Ok(image) => Ok(EncodedPicture::Planes(image)),
        Err(_) => Err(Why::NoMemory),
    }
}

// The encoder, given the samples that the reader has, and those that come.
fn feed_all<'a, D: Desk>(
    alloc: Global,
    reader: ImageSource,
    encoder: ImageEncoder<'a>,
    desk: &mut D,
) -> Result<ImageEncoder<'a>, Why>
    requires open { (D.state desk.old).input_open ≡ true }
    requires few { length (source_samples reader) ≤ encoder_left encoder }
    requires goes { GoesOn reader encoder (D.state desk.old) }
    ensures { FeedsAll reader encoder.entry (D.state desk.old) result (D.state desk.new) }
{
    let mut encoder = encoder;
    match encoder.feed(reader.samples()) {
        Err(_) => Err(Why::NoMemory),
        Ok(()) => {
            let taken = reader.taken();
            let sink = SamplesSink {
                encoder,
                rest: rest_of(reader),
                made: Bytes::new(alloc),
                taken,
            };
            feed_rest(sink, desk)
        }
    }
}

// What gives the samples that come, of a reader that tells the image's numbers.
fn rest_of(reader: ImageSource) -> Rest
    requires { (info : Numbers) × (bytes : List ℕ) × HasFed (is_targa reader) bytes reader × CanGoOn info bytes reader }
    ensures { GivesRest reader result }
{
    match reader.plain() {
        Some(_) => Rest::Plain,
        None => Rest::Given(reader.into_samples()),
    }
}

// The encoder, given the samples that are left.
fn feed_rest<'a, D: Desk>(sink: SamplesSink<'a>, desk: &mut D) -> Result<ImageEncoder<'a>, Why>
    requires open { (D.state desk.old).input_open ≡ true }
    requires given { AreSomeGiven sink (D.state desk.old) }
    ensures { FeedsRest sink.entry (D.state desk.old) result (D.state desk.new) }
{
    let mut sink = sink;
    match pump_on(desk, sink.taken, &mut sink) {
        Ok(_) => {
            let SamplesSink { encoder, .. } = sink;
            Ok(encoder)
        }
        Err(why) => Err(why),
    }
}

// What gives the samples of the bytes that are read: they are the samples, or a reader gives them.
#[derive(Drop)]
enum Rest {
    Plain,
    Given(ImageSamples),
}

// What takes the samples of an image.
#[derive(Drop)]
struct SamplesSink<'a> {
    // What they are given to.
    encoder: ImageEncoder<'a>,
    // What gives them.
    rest: Rest,
    // Room for those of a piece that a reader gives.
    made: Bytes,
    // How many bytes of the file were read.
    taken: u64,
}

impl<'a, D: Desk> PieceSink<D> for SamplesSink<'a> {
    ghost kind = { of_reader samples_reader };

    #[tactic(auto, using(crate::proofs::Pieces::InputMost::input_most))]
    fn most(&self) -> u64 {
        Limits::standard().input
    }

    fn feed(&mut self, piece: &[u8], _desk: &mut D) -> Result<bool, Why> {
        take_samples(self, piece)
    }

    fn end(&mut self, _desk: &mut D) -> Result<Option<u64>, Why> {
        end_samples(self)
    }
}

// Takes the samples of a piece. Returns whether all were given.
fn take_samples(sink: &mut SamplesSink<'_>, piece: &[u8]) -> Result<bool, Why>
    requires fed { (targa : Bool) × (from : Encoder) × (bytes : List ℕ) × AreGiven targa from bytes sink.old × (length (bytes ++ piece.now) ≤ standard_limits.input) }
    requires few { length piece.now ≤ 16384 }
    ensures { TakesPiece samples_reader sink.old piece.now result sink.new }
{
    sink.taken += piece.len() as u64;
    match &mut sink.rest {
        Rest::Plain => match feed_piece(&mut sink.encoder, piece) {
            Err(_) => Err(Why::NoMemory),
            Ok(()) => are_all(sink),
        },
        Rest::Given(samples) => {
            sink.made.clear();
            match samples.feed(piece, &mut sink.made) {
                Err(why) => Err(why),
                Ok(whole) => match feed_piece(&mut sink.encoder, sink.made.as_slice()) {
                    Err(_) => Err(Why::NoMemory),
                    Ok(()) => Ok(whole),
                },
            }
        }
    }
}

// The input ends: a reader gives the samples that it held, and these are all; or the file is too short.
fn end_samples(sink: &mut SamplesSink<'_>) -> Result<Option<u64>, Why>
    requires { (targa : Bool) × (from : Encoder) × (bytes : List ℕ) × AreGiven targa from bytes sink.old }
    ensures { TakesEnd samples_reader sink.old result sink.new }
{
    let Rest::Given(samples) = &mut sink.rest else {
        return Err(refused(Fault::ImageShort, sink.taken));
    };
    sink.made.clear();
    match samples.end(&mut sink.made) {
        Err(why) => Err(why),
        Ok(()) => match feed_piece(&mut sink.encoder, sink.made.as_slice()) {
            Err(_) => Err(Why::NoMemory),
            Ok(()) => Ok(None),
        },
    }
}

// Gives it these samples, no more than are left: bytes after the last sample are left unread.
fn feed_piece(encoder: &mut ImageEncoder<'_>, piece: &[u8]) -> Result<(), NoMemory>
    requires { HasSomeTaken encoder.old }
    ensures { OnOk result (TakesSome encoder.old piece.now encoder.new) }
{
    let few = encoder.left().min(piece.len());
    encoder.feed(&piece[..few])
}

// Whether all samples were given. If some are left, and as many bytes were taken as may be, that is a fault.
fn are_all(sink: &SamplesSink<'_>) -> Result<bool, Why>
    ensures { AreAll sink.now result }
{
    if sink.encoder.left() == 0 {
        return Ok(true);
    }
    let most = Limits::standard().input;
    if sink.taken == most {
        return Err(refused(Fault::InputTooLong, most));
    }
    Ok(false)
}

// The fault of the bytes so far, at their number.
fn refused(fault: Fault, at: u64) -> Why
    ensures { result ≡ why.Refused (record { fault = fault; at = at }) }
{
    Why::Refused(FaultAt { fault, at })
}
