use std::alloc::Global;
use std::fmt::Write;
use std::test::Fail;
use stmt_token::{MOST_BYTES, Reader, Token};

const LONGEST: &str = "abcdefghi_abcdefghi_abcdefghi_abcdefghi_abcdefghi_abcdefghi_123";

// Bytes as the characters of these codes.
fn show_bytes(out: &mut String, bytes: &[u8]) -> Result<(), Fail> {
    for byte in bytes {
        out.push(char::from(*byte))?;
    }
    Ok(())
}

fn show_token(out: &mut String, alloc: Global, token: Token) -> Result<(), Fail> {
    let kind = match token {
        Token::Word(_) => "word ",
        Token::Quoted(_) => "name ",
        Token::Number(_) => "number ",
        Token::Text(_) => "text ",
        Token::Sign(_) => "",
        Token::Bad => "bad",
        Token::End => "end",
    };
    out.push_str(kind)?;
    if let Token::Sign(sign) = token {
        write!(out, "{sign:?}")?;
    }
    if let Token::Number(number) = token {
        write!(out, "{number}")?;
    }
    if let Some(name) = token.name(alloc)? {
        show_bytes(out, name.as_slice())?;
    }
    if let Some(text) = token.text(alloc)? {
        show_bytes(out, text.as_slice())?;
    }
    Ok(())
}

// The tokens of a text, each behind its place, and the end.
fn shown(alloc: Global, text: &[u8]) -> Result<String, Fail> {
    let mut out = String::new(alloc);
    if text.len() > MOST_BYTES {
        return Ok(out);
    }
    let mut reader = Reader::of(text);
    for _ in 0..=text.len() {
        let place = reader.place();
        write!(out, "{place} ")?;
        let token = reader.next();
        show_token(&mut out, alloc, token)?;
        if matches!(token, Token::End) {
            break;
        }
        out.push_str(" | ")?;
    }
    Ok(out)
}

#[test]
fn texts_have_these_tokens_at_these_places(rt: HostRuntime) -> Result<(), Fail> {
    let alloc = rt.alloc();
    let rows: [(&[u8], &str); 32] = [
        (b"", "0 end"),
        (b" \t\r\n", "4 end"),
        (
            b"CREATE Index_2\r\n_x ",
            "0 word create | 7 word index_2 | 16 word _x | 19 end",
        ),
        (
            b"\"A b\"\"c;\"x",
            "0 name A b | 5 name c; | 9 word x | 10 end",
        ),
        (
            b"0 007 999999999999999999",
            "0 number 0 | 2 number 7 | 6 number 999999999999999999 | 24 end",
        ),
        (b"1 0000000000000000000", "0 number 1 | 2 bad | 21 end"),
        (b"12ab", "0 number 12 | 2 word ab | 4 end"),
        (
            b"'' 'It''s \"' '''' 'a' 'b'",
            "0 text  | 3 text It's \" | 13 text ' | 18 text a | 22 text b | 25 end",
        ),
        (
            b"<=<>>=!=",
            "0 LessEqual | 2 NotEqual | 4 GreaterEqual | 6 NotEqual | 8 end",
        ),
        (b"< =>=", "0 Less | 2 Equal | 3 GreaterEqual | 5 end"),
        (
            b"::[]>",
            "0 TypeCast | 2 LeftBracket | 3 RightBracket | 4 Greater | 5 end",
        ),
        (
            b"(a.b,",
            "0 LeftParen | 1 word a | 2 Dot | 3 word b | 4 Comma | 5 end",
        ),
        (
            b"-1);",
            "0 Minus | 1 number 1 | 2 RightParen | 3 Semicolon | 4 end",
        ),
        (b"a !", "0 word a | 2 bad | 3 end"),
        (b":a", "0 bad | 2 end"),
        (b"a : b", "0 word a | 2 bad | 5 end"),
        (b"a $ b", "0 word a | 2 bad | 5 end"),
        (b"x\x0C", "0 word x | 1 bad | 2 end"),
        (b"\x0B", "0 bad | 1 end"),
        (b"\xC3\xA4", "0 bad | 2 end"),
        (b"a\x00", "0 word a | 1 bad | 2 end"),
        (b" 'ab", "1 bad | 4 end"),
        (b"'a''", "0 bad | 4 end"),
        (b"'", "0 bad | 1 end"),
        (b"\"ab", "0 bad | 3 end"),
        (b"\"", "0 bad | 1 end"),
        (b"\"\" a", "0 bad | 4 end"),
        (b"\"a\x00\"", "0 bad | 4 end"),
        (b"'a\x00\xFF'", "0 text a\0\u{FF} | 5 end"),
        (b"\"\xC3\xA4\"", "0 name \u{C3}\u{A4} | 4 end"),
        (b"*", "0 bad | 1 end"),
        (b"--", "0 Minus | 1 Minus | 2 end"),
    ];
    for (text, wanted) in rows {
        let tokens = shown(alloc, text)?;
        assert!(rt; tokens.as_str() == wanted);
    }
    Ok(())
}

#[test]
fn words_and_quoted_names_have_at_most_63_bytes(rt: HostRuntime) -> Result<(), Fail> {
    let alloc = rt.alloc();
    let word = shown(alloc, format!(in alloc; "{LONGEST}")?.as_bytes())?;
    let wanted = format!(in alloc; "0 word {LONGEST} | 63 end")?;
    assert!(rt; word.as_str() == wanted.as_str());
    let too_long = shown(alloc, format!(in alloc; "{LONGEST}4")?.as_bytes())?;
    assert!(rt; too_long.as_str() == "0 bad | 64 end");
    let name = shown(alloc, format!(in alloc; "\"{LONGEST}\"")?.as_bytes())?;
    let wanted = format!(in alloc; "0 name {LONGEST} | 65 end")?;
    assert!(rt; name.as_str() == wanted.as_str());
    let too_long = shown(alloc, format!(in alloc; "\"{LONGEST} \"")?.as_bytes())?;
    assert!(rt; too_long.as_str() == "0 bad | 66 end");
    Ok(())
}

#[test]
fn names_and_settings_are_told_by_their_bytes(rt: HostRuntime) -> Result<(), Fail> {
    let rows: [(&[u8], &[u8], bool, bool, bool); 10] = [
        // a token, bytes, whether it is this word, this name and this setting
        (b"On", b"on", true, true, true),
        (b"On", b"On", false, false, false),
        (b"On", b"o", false, false, false),
        (b"On", b"one", false, false, false),
        (b"\"On\"", b"On", false, true, false),
        (b"\"On\"", b"on", false, false, false),
        (b"'oN'", b"on", false, false, true),
        (b"'o''N'", b"o'n", false, false, true),
        (b"' on'", b"on", false, false, false),
        (b"7", b"7", false, false, false),
    ];
    for (text, bytes, word, name, setting) in rows {
        let token = Reader::of(text).peek();
        assert!(rt; token.is_word(bytes) == word);
        assert!(rt; token.is_name(bytes) == name);
        assert!(rt; token.is_setting(bytes) == setting);
    }
    let numbers: [(&[u8], Option<u64>); 6] = [
        (b"042", Some(42)),
        (b"'042'", Some(42)),
        (b"''", None),
        (b"'4 '", None),
        (b"'1234567890123456789'", None),
        (b"x", None),
    ];
    for (text, number) in numbers {
        assert!(rt; Reader::of(text).peek().number() == number);
    }
    Ok(())
}

#[test]
fn names_are_copied_in_lower_case_unless_quoted(rt: HostRuntime) -> Result<(), Fail> {
    let rows: [(&[u8], Option<&[u8]>); 3] = [
        (b"My_Table2", Some(b"my_table2")),
        (b"\"My Table\"", Some(b"My Table")),
        (b"12", None),
    ];
    for (text, wanted) in rows {
        let reader = Reader::of(text);
        let name = reader.copy().peek().name(rt.alloc())?;
        let bytes = name.as_ref().map(|name| name.as_slice());
        assert!(rt; bytes == wanted);
    }
    Ok(())
}
