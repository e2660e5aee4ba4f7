//! The purposes of the switches of the commands (the manuals of release 6b).

/// The purpose of a switch.
#[derive(Clone, Copy, Debug, PartialEq, Eq)]
pub enum Purpose {
    /// A switch of release 6b that the suite leaves out.
    LeftOut,
    /// A switch without a value.
    Alone(Flag),
    /// A switch whose value is the next word.
    Valued(Setting),
}

/// The switches without a value.
#[derive(Clone, Copy, Debug, PartialEq, Eq)]
pub enum Flag {
    /// `-replace`: the comments of the input are left out.
    Replace,
    /// `-transpose`
    Transpose,
    /// `-transverse`
    Transverse,
    /// `-trim`: partial iMCUs that would remain in place are left out.
    Trim,
    /// `-upright`: the Exif orientation chooses the transform.
    Upright,
    /// `-grayscale`: only the first component.
    Gray,
    /// `-progressive`
    Progressive,
    /// `-pnm`, `-ppm`: the image is written as PNM.
    Pnm,
    /// `-bmp`: the image is written as BMP.
    Bmp,
    /// `-targa`: the image is written, or read, as Targa.
    Targa,
    /// `-nosmooth`: rows of samples are repeated when they are upsampled.
    NoSmooth,
    /// `-baseline`: no quantiser of more than one byte.
    Baseline,
}

/// The switches with a value.
#[derive(Clone, Copy, Debug, PartialEq, Eq)]
pub enum Setting {
    /// `-comment`: the comment.
    Comment,
    /// `-cfile`: the name of the file that has the comment.
    CommentFile,
    /// `-copy`: which kept markers are passed on.
    Copy,
    /// `-crop`: the area that is cut out.
    Crop,
    /// `-flip`: the direction.
    Flip,
    /// `-rotate`: the number of degrees.
    Rotate,
    /// `-outfile`: the name of the output.
    Output,
    /// `-scans`: the name of the file that has the script.
    Scans,
    /// `-restart`: how many MCUs or rows of them an interval has.
    Restart,
    /// `-huffman`: which Huffman tables the scans are written with.
    Huffman,
    /// `-dct`: the arithmetic, only `int`.
    Dct,
    /// `-scale`: the size, only `1/1`.
    Scale,
    /// `-preview`: how many scans are shown.
    Preview,
    /// `-quality`: the quality of the quantisers.
    Quality,
    /// `-sample`: the factors of the components.
    Sample,
    /// `-qtables`: the name of the file that has tables of quantisers.
    Tables,
}
