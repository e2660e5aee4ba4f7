//! What `--help` prints, one line for each switch, and what a call without words says. tests/switches checks it against
//! completions/table.

const JPEGTRAN: &str = "\
jpegtran [SWITCHES] [FILE] > OUTPUT
  Transforms a JPEG without loss. The rest is in: man jpegtran
  -flip horizontal    mirror left to right (vertical: top to bottom)
  -rotate 90          rotate clockwise by 90, 180 or 270 degrees
  -transpose          mirror at the diagonal from the upper left
  -transverse         mirror at the other diagonal
  -upright            turn it as its Exif orientation asks, and mark it so
  -trim               drop partial MCUs that would stay at the edge
  -grayscale          keep only the first component (-greyscale too)
  -crop WxH+X+Y       cut out this area; its corner moves to that of an MCU
  -copy all           keep the metadata: none, comments (default) or all
  -progressive        write progressive scans (default: sequential)
  -scans FILE         write the scans of this script
  -huffman fitted     fit the Huffman tables to the picture (default: plain)
  -restart N          a restart marker after N rows of MCUs (NB: N MCUs)
  -outfile NAME       write this file (default: standard output)
  Instead of -optimize use -huffman fitted. There is no -perfect, -drop,
    -wipe, -copy icc, -arithmetic, -maxmemory or -verbose.
";

const DJPEG: &str = "\
djpeg [SWITCHES] [FILE] > OUTPUT
  Decodes a JPEG. The rest is in: man djpeg
  -pnm                write PNM (default; -ppm too)
  -bmp                write BMP
  -targa              write Targa
  -grayscale          write only the luminance (-greyscale too)
  -nosmooth           repeat the samples that are smoothed otherwise
  -preview N          show the picture after its first N scans
  -dct int            the arithmetic; there is no other
  -scale 1/1          the size; there is no other
  -outfile NAME       write this file (default: standard output)
  There is no -dct fast, -colors, -gif, -rgb, -icc, -maxmemory or -verbose.
";

const CJPEG: &str = "\
cjpeg [SWITCHES] [FILE] > OUTPUT
  Encodes a PNM, BMP or Targa image. The rest is in: man cjpeg
  -targa              read Targa (PNM and BMP need no switch)
  -quality N          from 0 to 100 (default: 75)
  -grayscale          encode only the luminance (-greyscale too)
  -sample HxV,..      the sampling factors (default: 2x2,1x1,1x1)
  -qtables FILE       take the quantisers from this file
  -baseline           let no quantiser exceed 255
  -progressive        write progressive scans (default: sequential)
  -scans FILE         write the scans of this script
  -huffman fitted     fit the Huffman tables to the picture (default: plain)
  -restart N          a restart marker after N rows of MCUs (NB: N MCUs)
  -dct int            the arithmetic; there is no other
  -outfile NAME       write this file (default: standard output)
  Instead of -optimize use -huffman fitted. There is no -dct fast, -smooth,
    -icc, -arithmetic or -maxmemory.
";

const RDJPGCOM: &str = "\
rdjpgcom [FILE] > OUTPUT
  Prints the comments of a JPEG. The rest is in: man rdjpgcom
  There is no -verbose or -raw.
";

const WRJPGCOM: &str = "\
wrjpgcom [SWITCHES] [FILE] > OUTPUT
  Inserts a comment into a JPEG. The rest is in: man wrjpgcom
  -replace            drop the comments that are there
  -comment TEXT       the comment (default: standard input)
  -cfile FILE         the comment is in this file
";

const ALL: &str = "\
Switches come before FILE and may be shortened. Without FILE standard input is
read. Messages, statuses and how outputs are replaced are in: man jpgsuite
";

/// The help for each command, `jpegtran` first, and what is said of all.
pub(crate) static HELP: [&str; 6] = [JPEGTRAN, DJPEG, CJPEG, RDJPGCOM, WRJPGCOM, ALL];

/// How to begin, for a call without words.
pub(crate) const BEGIN: &str = "\
Name a command: jpegtran, djpeg, cjpeg, rdjpgcom or wrjpgcom. For instance
    jpgsuite jpegtran -rotate 90 -outfile turned.jpg picture.jpg
jpgsuite --help lists all switches, and man jpgsuite has the rest.
";
