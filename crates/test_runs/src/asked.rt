// What words ask for, part by part.
use jpg_base::Name;
use jpg_cli::{Asked, CommentFrom, Files, ScriptFrom, TransformWords, WriteWords, read_words};
use std::alloc::Global;
use test_parts::Answer;

/// Says each part that the words ask for in another way than is expected. Each is `PART VALUE`, and commas part them.
pub fn judge_words(alloc: Global, words: &[String], due: &str, said: &mut Answer) {
    match read_words(alloc, words) {
        Ok(asked) => judge_parts(alloc, &asked, due, said),
        Err(_) => said.say("other words"),
    }
}

fn judge_parts(alloc: Global, asked: &Asked, due: &str, said: &mut Answer) {
    for text in due.split(',') {
        let text = text.trim();
        let (part, value) = text.split_once(' ').unwrap_or((text, ""));
        let mut got = Answer::new(alloc);
        add_part(asked, part, &mut got);
        if got.text().trim_end() != value {
            said.say(part);
            said.add(" is ");
            said.add(got.text());
        }
    }
}

fn add_part(asked: &Asked, part: &str, got: &mut Answer) {
    match asked {
        Asked::Jpegtran(words) => add_transform_part(words, part, got),
        Asked::Rdjpgcom(files) => add_file_part(files, part, got),
        Asked::Wrjpgcom(words) => add_comment_part(words, part, got),
        _ => got.add("?"),
    }
}

fn add_file_part(files: &Files, part: &str, got: &mut Answer) {
    match part {
        "input" => got.add(name_text(&files.input)),
        "output" => got.add(name_text(&files.output)),
        _ => got.add("?"),
    }
}

// The text of a name, or what stands for the streams.
fn name_text(name: &Name) -> &str {
    match name {
        Name::In => "<input>",
        Name::Out => "<output>",
        Name::File(text) => text.as_str(),
    }
}

fn add_transform_part(words: &TransformWords, part: &str, got: &mut Answer) {
    match part {
        "transform" => got.add_shown(&words.transform),
        "upright" => got.add_shown(&words.upright),
        "trim" => got.add_shown(&words.trim),
        "gray" => got.add_shown(&words.gray),
        "copying" => got.add_shown(&words.copying),
        "huffman" => got.add_shown(&words.huffman),
        "restart" => got.add_shown(&words.restart),
        "scans" => add_script(&words.script, got),
        _ => add_file_part(&words.files, part, got),
    }
}

fn add_script(script: &ScriptFrom, got: &mut Answer) {
    match script {
        ScriptFrom::Sequential => got.add("sequential"),
        ScriptFrom::Standard => got.add("standard"),
        ScriptFrom::File(name) => {
            got.add("file ");
            got.add(name.as_str());
        }
    }
}

fn add_comment_part(words: &WriteWords, part: &str, got: &mut Answer) {
    match part {
        "replace" => got.add_shown(&words.replace),
        "comment" => add_comment(&words.comment, got),
        _ => add_file_part(&words.files, part, got),
    }
}

fn add_comment(comment: &CommentFrom, got: &mut Answer) {
    match comment {
        CommentFrom::Input => got.add("input"),
        CommentFrom::Given(text) => {
            got.add("given ");
            got.add(text.as_str());
        }
        CommentFrom::File(name) => {
            got.add("file ");
            got.add(name.as_str());
        }
    }
}
