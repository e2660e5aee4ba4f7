//! Worked examples of words: what the words of jpegtran, djpeg and cjpeg ask for, by computation.
#![tactic(auto, unfolding(jpg_spec::specs::Codes::are_codes, jpg_spec::specs::HuffContents::huffman_table_of, jpg_spec::specs::HuffContents::huffman_tables_of, jpg_spec::specs::QuantContents::quant_tables_of))]

ghost use Rattle.std.specs.Prelude.{◌≡◌, [], ◌∷◌, ◌++◌, true, false, None, Some, codes};
ghost use Rattle.jpg_spec_words.specs.CommentWords.{read_asked, write_asked};
ghost use Rattle.jpg_spec_words.specs.EncodeWords.{encode_asked, encode_default, factors_due};
ghost use Rattle.jpg_spec_words.specs.Requests.{from_to, named, standard_input, usage_at, with_output, words_right};
ghost use Rattle.jpg_spec_words.specs.ShowWords.{scans_named, show_asked, show_default};
ghost use Rattle.jpg_spec_write.specs.FileText.{rows, mcus};
ghost use Rattle.jpg_spec_write.specs.declared.huffman.Huffman.TheVariants.{Fitted};
ghost use Rattle.jpg_spec_words.specs.TransformWords.{area_named, area_of, transform_asked, transform_default, own_progressive, in_file};
ghost use Rattle.jpg_spec_words.specs.Work.{back_asked, first_asked, sides_line, turned_asked, work_info};
ghost use Rattle.jpg_spec_words.specs.WorkWords.{work_asked};
ghost use Rattle.jpg_spec_words.specs.declared.answers.UsageFault.TheVariants.{BadValue, LeftOutSwitch, MissingValue, TooManyFiles, TwoTransforms, UnknownSwitch};
ghost use Rattle.jpg_spec.specs.declared.frame.Copying.TheVariants as copying;
ghost use Rattle.jpg_spec_image.specs.declared.image.EndKind.TheVariants.{Pnm, Bmp, Targa};
ghost use Rattle.jpg_spec_move.specs.declared.transform.Transform.TheVariants.{FlipH, Rotate90, Transpose, Transverse};
ghost use Rattle.jpg_spec_words.specs.declared.answers.UsageFault.TheVariants as usage;

/// Prefixes of names are enough, in any case, and a number may have leading zeros.
pub fn beginnings_are_enough()
    ensures none { transform_asked [] ≡ words_right transform_default }
    ensures flip { transform_asked (codes "-f" ∷ codes "H" ∷ []) ≡ words_right (record transform_default { transform = FlipH }) }
    ensures rotate { transform_asked (codes "-RO" ∷ codes "090" ∷ []) ≡ words_right (record transform_default { transform = Rotate90 }) }
    ensures transpose { transform_asked (codes "-tr" ∷ []) ≡ words_right (record transform_default { transform = Transpose }) }
    ensures transverse { transform_asked (codes "-transv" ∷ []) ≡ words_right (record transform_default { transform = Transverse }) }
    ensures trim { transform_asked (codes "-tri" ∷ []) ≡ words_right (record transform_default { trim = true }) }
    ensures upright { transform_asked (codes "-U" ∷ []) ≡ words_right (record transform_default { upright = true }) }
    ensures gray { transform_asked (codes "-grey" ∷ []) ≡ words_right (record transform_default { gray = true }) }
    ensures copy { transform_asked (codes "-c" ∷ codes "al" ∷ []) ≡ words_right (record transform_default { copying = copying.All }) }
    ensures progressive { transform_asked (codes "-P" ∷ []) ≡ words_right (record transform_default { scans = own_progressive }) }
    ensures script { transform_asked (codes "-s" ∷ codes "a" ∷ []) ≡ words_right (record transform_default { scans = in_file (codes "a") }) }
    ensures rows { transform_asked (codes "-r" ∷ codes "65535" ∷ []) ≡ words_right (record transform_default { restart = rows 65535 }) }
    ensures mcus { transform_asked (codes "-r" ∷ codes "7b" ∷ []) ≡ words_right (record transform_default { restart = mcus 7 }) }
    ensures off { transform_asked (codes "-restart" ∷ codes "0B" ∷ []) ≡ words_right transform_default }
    ensures fitted { transform_asked (codes "-h" ∷ codes "F" ∷ []) ≡ words_right (record transform_default { huffman = Fitted }) }
    ensures plain { transform_asked (codes "-huffman" ∷ codes "pl" ∷ []) ≡ words_right transform_default }
{}

/// A switch that is repeated takes its last value, the word after `-outfile` is a name whatever it is, and the last
/// word may name the input.
pub fn last_values_count()
    ensures again { transform_asked (codes "-copy" ∷ codes "all" ∷ codes "-copy" ∷ codes "none" ∷ []) ≡ words_right (record transform_default { copying = copying.None }) }
    ensures output { transform_asked (codes "-outf" ∷ codes "-trim" ∷ []) ≡ words_right (record transform_default { files = with_output (codes "-trim") (from_to standard_input) }) }
    ensures input { transform_asked (codes "-trim" ∷ codes "a" ∷ []) ≡ words_right (record transform_default { files = from_to (named (codes "a")); trim = true }) }
    ensures script { transform_asked (codes "-s" ∷ codes "a" ∷ codes "-p" ∷ []) ≡ words_right (record transform_default { scans = in_file (codes "a") }) }
    ensures none { transform_asked (codes "-restart" ∷ codes "3" ∷ codes "-restart" ∷ codes "0" ∷ []) ≡ words_right transform_default }
    ensures same { transform_asked (codes "-flip" ∷ codes "h" ∷ codes "-flip" ∷ codes "h" ∷ []) ≡ words_right (record transform_default { transform = FlipH }) }
    ensures upright { transform_asked (codes "-upright" ∷ codes "-upr" ∷ []) ≡ words_right (record transform_default { upright = true }) }
{}

/// The first wrong word is reported.
pub fn wrong_words_have_their_places()
    ensures two { transform_asked (codes "-flip" ∷ codes "horizontal" ∷ codes "-rotate" ∷ codes "90" ∷ []) ≡ usage_at TwoTransforms 3 }
    ensures turned { transform_asked (codes "-upright" ∷ codes "-rotate" ∷ codes "90" ∷ []) ≡ usage_at TwoTransforms 2 }
    ensures upright { transform_asked (codes "-transpose" ∷ codes "-upright" ∷ []) ≡ usage_at TwoTransforms 2 }
    ensures left_out { transform_asked (codes "-optimize" ∷ []) ≡ usage_at LeftOutSwitch 1 }
    ensures unknown { transform_asked (codes "-out" ∷ codes "x" ∷ []) ≡ usage_at UnknownSwitch 1 }
    ensures short { transform_asked (codes "-" ∷ []) ≡ usage_at UnknownSwitch 1 }
    ensures missing { transform_asked (codes "-flip" ∷ codes "h" ∷ codes "-rotate" ∷ []) ≡ usage_at MissingValue 3 }
    ensures bad { transform_asked (codes "-flip" ∷ codes "h" ∷ codes "-rotate" ∷ codes "77" ∷ []) ≡ usage_at BadValue 4 }
    ensures empty { transform_asked (codes "-copy" ∷ codes "" ∷ []) ≡ usage_at BadValue 2 }
    ensures large { transform_asked (codes "-restart" ∷ codes "65536" ∷ []) ≡ usage_at BadValue 2 }
    ensures letter { transform_asked (codes "-restart" ∷ codes "B" ∷ []) ≡ usage_at BadValue 2 }
    ensures huffman { transform_asked (codes "-huffman" ∷ codes "optimal" ∷ []) ≡ usage_at BadValue 2 }
    ensures long { transform_asked (codes "-rotate" ∷ codes "000090" ∷ []) ≡ usage_at BadValue 2 }
    ensures files { transform_asked (codes "a" ∷ codes "-trim" ∷ []) ≡ usage_at TooManyFiles 2 }
{}

/// An area is four numbers; the switch that is repeated takes its last value, and `-co` is `-copy`.
pub fn areas_are_four_numbers()
    ensures least { transform_asked (codes "-cr" ∷ codes "1x1+0+0" ∷ []) ≡ words_right (record transform_default { crop = Some (area_of 1 1 0 0) }) }
    ensures most { area_named (codes "99999x00008+00+16") ≡ Some (area_of 99999 8 0 16) }
    ensures again { transform_asked (codes "-crop" ∷ codes "8x8+0+0" ∷ codes "-CRO" ∷ codes "9x9+9+0" ∷ [])
        ≡ words_right (record transform_default { crop = Some (area_of 9 9 9 0) }) }
    ensures copy { transform_asked (codes "-co" ∷ codes "a" ∷ []) ≡ words_right (record transform_default { copying = copying.All }) }
{}

/// Other values aren't areas: without pixels, with a number of six digits, with a part missing or left over, or with
/// another sign.
pub fn other_values_are_not_areas()
    ensures none { transform_asked (codes "-crop" ∷ codes "0x8+0+0" ∷ []) ≡ usage_at BadValue 2 }
    ensures flat { area_named (codes "8x0+0+0") ≡ None }
    ensures long { area_named (codes "8x8+100000+0") ≡ None }
    ensures six { area_named (codes "8x8+0+000000") ≡ None }
    ensures side { area_named (codes "x8+0+0") ≡ None }
    ensures corner { area_named (codes "8x8+0") ≡ None }
    ensures last { area_named (codes "8x8+0+") ≡ None }
    ensures more { area_named (codes "8x8+0+0+0") ≡ None }
    ensures capital { area_named (codes "8X8+0+0") ≡ None }
    ensures before { area_named (codes "8x8-8+0") ≡ None }
    ensures missing { transform_asked (codes "-cr" ∷ []) ≡ usage_at MissingValue 1 }
{}

/// A picture is decoded to PNM if no word asks for a format, otherwise to the last one; its fault is at that word, or
/// after all words.
pub fn the_last_format_counts()
    ensures none { show_asked [] ≡ words_right (show_default 1) }
    ensures pnm { (show_default 1).kind ≡ Pnm }
    ensures place { (show_default 1).kind_word ≡ 1 }
    ensures bmp { show_asked (codes "-B" ∷ []) ≡ words_right (record (show_default 2) { kind = Bmp; kind_word = 1 }) }
    ensures targa { show_asked (codes "-t" ∷ []) ≡ words_right (record (show_default 2) { kind = Targa; kind_word = 1 }) }
    ensures last { show_asked (codes "-bmp" ∷ codes "-ppm" ∷ []) ≡ words_right (record (show_default 3) { kind_word = 2 }) }
    ensures gray { show_asked (codes "-gr" ∷ []) ≡ words_right (record (show_default 2) { gray = true }) }
    ensures smooth { show_asked (codes "-nos" ∷ []) ≡ words_right (record (show_default 2) { smooth = false }) }
    ensures int { show_asked (codes "-dct" ∷ codes "INT" ∷ []) ≡ words_right (show_default 3) }
    ensures scale { show_asked (codes "-s" ∷ codes "1/1" ∷ []) ≡ words_right (show_default 3) }
{}

/// A preview shows from 1 to 65535 scans, and the switch that is repeated takes its last value.
pub fn a_preview_shows_some_scans()
    ensures all { (show_default 1).preview ≡ None }
    ensures one { show_asked (codes "-preview" ∷ codes "1" ∷ []) ≡ words_right (record (show_default 3) { preview = Some 1 }) }
    ensures most { show_asked (codes "-PRE" ∷ codes "65535" ∷ []) ≡ words_right (record (show_default 3) { preview = Some 65535 }) }
    ensures zeros { scans_named (codes "00009") ≡ Some 9 }
    ensures again { show_asked (codes "-pre" ∷ codes "3" ∷ codes "-prev" ∷ codes "2" ∷ []) ≡ words_right (record (show_default 5) { preview = Some 2 }) }
    ensures none { show_asked (codes "-preview" ∷ codes "0" ∷ []) ≡ usage_at BadValue 2 }
    ensures large { show_asked (codes "-bmp" ∷ codes "-preview" ∷ codes "65536" ∷ []) ≡ usage_at BadValue 3 }
    ensures letter { scans_named (codes "1a") ≡ None }
    ensures empty { scans_named (codes "") ≡ None }
    ensures long { scans_named (codes "000001") ≡ None }
    ensures missing { show_asked (codes "-preview" ∷ []) ≡ usage_at MissingValue 1 }
    ensures short { show_asked (codes "-pr" ∷ codes "1" ∷ []) ≡ usage_at UnknownSwitch 1 }
    ensures format { show_asked (codes "-p" ∷ []) ≡ words_right (record (show_default 2) { kind_word = 1 }) }
{}

/// The first wrong word of djpeg is reported.
pub fn wrong_words_of_djpeg_have_their_places()
    ensures fast { show_asked (codes "-dct" ∷ codes "fast" ∷ []) ≡ usage_at BadValue 2 }
    ensures half { show_asked (codes "-bmp" ∷ codes "-scale" ∷ codes "1/2" ∷ []) ≡ usage_at BadValue 3 }
    ensures debug { show_asked (codes "-d" ∷ []) ≡ usage_at LeftOutSwitch 1 }
    ensures flip { show_asked (codes "-flip" ∷ codes "h" ∷ []) ≡ usage_at UnknownSwitch 1 }
    ensures files { show_asked (codes "a" ∷ codes "b" ∷ []) ≡ usage_at TooManyFiles 2 }
{}

/// The values of cjpeg: a quality of 0 is 1, and factors are pairs of digits, of which those that aren't given are 1 by
/// 1.
pub fn values_of_cjpeg_are_numbers()
    ensures none { encode_asked [] ≡ words_right encode_default }
    ensures quality { encode_asked (codes "-q" ∷ codes "095" ∷ []) ≡ words_right (record encode_default { quality = Some 95 }) }
    ensures least { encode_asked (codes "-quality" ∷ codes "0" ∷ []) ≡ words_right (record encode_default { quality = Some 1 }) }
    ensures one { encode_asked (codes "-sa" ∷ codes "2x1" ∷ []) ≡ words_right (record encode_default { factors = (2, 1) ∷ [] }) }
    ensures two { encode_asked (codes "-sa" ∷ codes "4x3,1x2" ∷ []) ≡ words_right (record encode_default { factors = (4, 3) ∷ (1, 2) ∷ [] }) }
    ensures more { factors_due ((2, 1) ∷ []) 3 ≡ (2, 1) ∷ (1, 1) ∷ (1, 1) ∷ [] }
    ensures gray { factors_due ((4, 3) ∷ (1, 2) ∷ []) 1 ≡ (4, 3) ∷ [] }
    ensures own { factors_due [] 3 ≡ (2, 2) ∷ (1, 1) ∷ (1, 1) ∷ [] }
    ensures tables { encode_asked (codes "-QT" ∷ codes "t" ∷ []) ≡ words_right (record encode_default { tables = Some (codes "t") }) }
    ensures targa { encode_asked (codes "-T" ∷ []) ≡ words_right (record encode_default { targa = true }) }
    ensures baseline { encode_asked (codes "-b" ∷ []) ≡ words_right (record encode_default { baseline = true }) }
    ensures huffman { encode_asked (codes "-huff" ∷ codes "fit" ∷ []) ≡ words_right (record encode_default { huffman = Fitted }) }
    ensures script { encode_asked (codes "-scan" ∷ codes "a" ∷ codes "-p" ∷ []) ≡ words_right (record encode_default { scans = in_file (codes "a") }) }
{}

/// The first wrong word of cjpeg is reported.
pub fn wrong_words_of_cjpeg_have_their_places()
    ensures quality { encode_asked (codes "-q" ∷ codes "101" ∷ []) ≡ usage_at BadValue 2 }
    ensures capital { encode_asked (codes "-sample" ∷ codes "2X1" ∷ []) ≡ usage_at BadValue 2 }
    ensures five { encode_asked (codes "-sa" ∷ codes "1x1,1x1,1x1,1x1,1x1" ∷ []) ≡ usage_at BadValue 2 }
    ensures comma { encode_asked (codes "-sa" ∷ codes "1x1," ∷ []) ≡ usage_at BadValue 2 }
    ensures large { encode_asked (codes "-sa" ∷ codes "5x1" ∷ []) ≡ usage_at BadValue 2 }
    ensures short { encode_asked (codes "-s" ∷ codes "a" ∷ []) ≡ usage_at UnknownSwitch 1 }
    ensures smooth { encode_asked (codes "-sm" ∷ codes "10" ∷ []) ≡ usage_at LeftOutSwitch 1 }
    ensures slots { encode_asked (codes "-qslots" ∷ codes "0" ∷ []) ≡ usage_at LeftOutSwitch 1 }
    ensures copy { encode_asked (codes "-copy" ∷ codes "all" ∷ []) ≡ usage_at UnknownSwitch 1 }
    ensures missing { encode_asked (codes "-b" ∷ codes "-qtables" ∷ []) ≡ usage_at MissingValue 2 }
    ensures bmp { encode_asked (codes "-bmp" ∷ []) ≡ usage_at UnknownSwitch 1 }
{}

/// wrjpgcom without a comment needs an input; `-cfile a -comment b` names two comments; rdjpgcom takes one file.
pub fn words_are_told()
    ensures needs { write_asked [] ≡ usage_at usage.NeedsInput 1 }
    ensures two { write_asked (codes "-cfile" ∷ codes "a" ∷ codes "-comment" ∷ codes "b" ∷ []) ≡ usage_at usage.TwoComments 3 }
    ensures file { read_asked (codes "x" ∷ []) ≡ words_right (from_to (named (codes "x"))) }
    ensures left_out { read_asked (codes "-V" ∷ []) ≡ usage_at usage.LeftOutSwitch 1 }
{}

/// jpgwork takes one number from 1 to 400.
pub fn the_number_of_jpgwork_is_bounded()
    ensures one { work_asked (codes "1" ∷ []) ≡ words_right 1 }
    ensures most { work_asked (codes "0400" ∷ []) ≡ words_right 400 }
    ensures missing { work_asked [] ≡ usage_at MissingValue 1 }
    ensures zero { work_asked (codes "0" ∷ []) ≡ usage_at BadValue 1 }
    ensures large { work_asked (codes "401" ∷ []) ≡ usage_at BadValue 1 }
    ensures letter { work_asked (codes "1a" ∷ codes "2" ∷ []) ≡ usage_at BadValue 1 }
    ensures switch { work_asked (codes "-1" ∷ []) ≡ usage_at BadValue 1 }
    ensures more { work_asked (codes "1" ∷ codes "2" ∷ []) ≡ usage_at TooManyFiles 2 }
{}

/// The steps of jpgwork are what these words ask for; the image of number 1 has 13 by 7 pixels.
pub fn the_steps_of_jpgwork_are_asked_for()
    ensures first { encode_asked (codes "-progressive" ∷ []) ≡ words_right first_asked }
    ensures turned { transform_asked (codes "-rotate" ∷ codes "90" ∷ []) ≡ words_right turned_asked }
    ensures back { transform_asked (codes "-rotate" ∷ codes "270" ∷ codes "-progressive" ∷ []) ≡ words_right back_asked }
    ensures sides { sides_line (work_info 1) ≡ codes "image 13 7" ++ 10 ∷ [] }
{}
