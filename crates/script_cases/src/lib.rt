//! Tests of scripts.

#![tactic(auto)]

#[cfg(test)]
mod tests {
    use scripts::playing::run;
    use std::alloc::{AllocError, Global};
    use std::test::Fail;

    // The listing of a script, or why it failed.
    fn listing(heap: Global, script: &str) -> Result<String, AllocError> {
        match run(heap, script) {
            Ok(entries) => {
                let mut all = String::new(heap);
                for entry in entries.iter() {
                    writeln!(all, "{entry}")?;
                }
                Ok(all)
            }
            Err(failure) => format!(in heap; "{failure}"),
        }
    }

    // The first script that is not listed, or does not fail, as the text beside it says. That there is none each test asserts by itself: a
    // function that asserts would need a handle that may end the process.
    fn first_wrong<'a>(
        heap: Global,
        cases: &'a [(&'a str, &'a str)],
    ) -> Result<Option<&'a str>, AllocError> {
        for (script, expected) in cases {
            if listing(heap, script)?.as_str() != *expected {
                return Ok(Some(*script));
            }
        }
        Ok(None)
    }

    const SENSELESS: [(&str, &str); 21] = [
        (
            "\n# a comment\nfrobnicate 1",
            "line 3: expected a command (--help lists them), found 'frobnicate'",
        ),
        (
            "labelling odd 4",
            "line 1: expected plain, complement or cyclic, found 'odd'",
        ),
        (
            "labelling",
            "line 1: expected plain, complement or cyclic, found the end of the line",
        ),
        (
            "operation plus 4",
            "line 1: expected min, max, cyclic-sum, truncated-sum or table, found 'plus'",
        ),
        (
            "operation min",
            "line 1: expected a number from 0 to 255, found the end of the line",
        ),
        (
            "operation min 256",
            "line 1: expected a number from 0 to 255, found '256'",
        ),
        (
            "operation min 4\nask 1 -1",
            "line 2: expected a number from 0 to 255, found '-1'",
        ),
        (
            "operation min 4\nask 1",
            "line 2: expected a number from 0 to 255, found the end of the line",
        ),
        (
            "operation min 4\nask 1 2 3",
            "line 2: expected the end of the line, found '3'",
        ),
        (
            "operation table 2\nfill 0 1 x 1",
            "line 2: expected a number from 0 to 255, found 'x'",
        ),
        (
            "values all",
            "line 1: expected the end of the line, found 'all'",
        ),
        (
            "ask 1 2",
            "line 1: expected an operation to be chosen on a line before",
        ),
        (
            "values",
            "line 1: expected an operation to be chosen on a line before",
        ),
        (
            "operation min 5\nask 0 0",
            "line 2: expected an operation to be chosen on a line before",
        ),
        (
            "\n\ncarry 0 0",
            "line 3: expected a labelling to be chosen on a line before",
        ),
        (
            "labels",
            "line 1: expected a labelling to be chosen on a line before",
        ),
        (
            "operation min 4\nturn 0 0 1",
            "line 2: expected a labelling to be chosen on a line before",
        ),
        (
            "labelling plain 4\nturn 0 0 0",
            "line 2: expected an operation to be chosen on a line before",
        ),
        (
            "operation min 2\nfill 0 0 0 0",
            "line 2: expected the operation at hand to be a table that is not turned",
        ),
        (
            "operation table 2\nlabelling plain 2\nturn 0 0 0\nfill 0 0 0 0",
            "line 4: expected the operation at hand to be a table that is not turned",
        ),
        (
            "operation max 2\nlabelling cyclic 2\nturn 1 0 0\ntell 1",
            "line 4: expected the operation at hand not to be turned",
        ),
    ];

    #[test]
    fn senseless_scripts(rt: HostRuntime) -> Result<(), Fail> {
        let wrong = first_wrong(rt.alloc(), &SENSELESS)?;
        assert!(rt; wrong.is_none(), "{}", wrong.unwrap_or(""));
        Ok(())
    }

    const GOOD: [(&str, &str); 6] = [
        ("", ""),
        ("# nothing\n\n   \n", ""),
        ("  say  two  words \nsay\n\tsay\tx", " two  words\n\nx\n"),
        (
            "operation truncated-sum 3\r\nvalues\r\nask 2 1\r\ntell 2\r\ntell 1\r\n",
            "operation truncated-sum 3: chosen\nvalues:\n      0 1 2\n  0 | 0 1 2\n  1 | 1 2 2\n  2 | 2 2 2\nask 2 1: 2\ntell 2: 2\ntell 1: none\n",
        ),
        (
            "labelling cyclic 3\nlabels\ncarry 2 2\nproduct 1 2\ninverse 1\nhome 2",
            "labelling cyclic 3: chosen\nlabels:\n      0 1 2\n  0 | 0 1 2\n  1 | 1 2 0\n  2 | 2 0 1\ncarry 2 2: 1\nproduct 1 2: 0\ninverse 1: 2\nhome 2: 2\n",
        ),
        (
            "labelling complement 4\noperation min 4\nturn 1 1 1\nask 1 2\nturn 0 0 0\nask 1 2",
            "labelling complement 4: chosen\noperation min 4: chosen\nturn 1 1 1: turned\nask 1 2: 2\nturn 0 0 0: turned\nask 1 2: 1\n",
        ),
    ];

    #[test]
    fn good_scripts(rt: HostRuntime) -> Result<(), Fail> {
        let wrong = first_wrong(rt.alloc(), &GOOD)?;
        assert!(rt; wrong.is_none(), "{}", wrong.unwrap_or(""));
        Ok(())
    }

    const REFUSED: [(&str, &str); 4] = [
        (
            "operation min 4\noperation max 5\nask 0 3\nask 4 0\ntell 4",
            "operation min 4: chosen\noperation max 5: refused: 1 (it does not serve this radix)\nask 0 3: 0\nask 4 0: refused: 5 (a value or byte is too large for its use)\ntell 4: refused: 5 (a value or byte is too large for its use)\n",
        ),
        (
            "labelling complement 4\ncarry 2 0\ncarry 2 4\nproduct 0 2\ninverse 2\nhome 4\nlabelling complement 3\ncarry 1 0",
            "labelling complement 4: chosen\ncarry 2 0: refused: 6 (there is no such label)\ncarry 2 4: refused: 5 (a value or byte is too large for its use)\nproduct 0 2: refused: 6 (there is no such label)\ninverse 2: refused: 6 (there is no such label)\nhome 4: refused: 5 (a value or byte is too large for its use)\nlabelling complement 3: refused: 1 (it does not serve this radix)\ncarry 1 0: 3\n",
        ),
        (
            "operation table 2\nfill 0 1 1 1\nfill 0 1 0\nfill 0 2 0 0\nvalues",
            "operation table 2: chosen\nfill 0 1 1 1: filled\nfill 0 1 0: refused: 7 (a length is wrong)\nfill 0 2 0 0: refused: 5 (a value or byte is too large for its use)\nvalues:\n      0 1\n  0 | 0 1\n  1 | 1 1\n",
        ),
        (
            "operation max 2\nlabelling complement 2\nturn 1 0 0\nturn 0 0 2\nlabelling cyclic 3\nturn 0 0 1\nask 0 0",
            "operation max 2: chosen\nlabelling complement 2: chosen\nturn 1 0 0: turned\nturn 0 0 2: refused: 6 (there is no such label)\nlabelling cyclic 3: chosen\nturn 0 0 1: refused: 8 (the radices differ)\nask 0 0: 1\n",
        ),
    ];

    // A refusal is listed, and changes nothing.
    #[test]
    fn refusals_are_listed(rt: HostRuntime) -> Result<(), Fail> {
        let wrong = first_wrong(rt.alloc(), &REFUSED)?;
        assert!(rt; wrong.is_none(), "{}", wrong.unwrap_or(""));
        Ok(())
    }
}
