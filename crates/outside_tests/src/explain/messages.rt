// The message of each code: expected texts are reasoned from the table of faults.
// They depend on the messages; nothing depends on them.
use statuses::explain::explain;

// The text of the file `f`, a fault in it, and the message; nothing where the numbers are no fault.
static MESSAGES: [(&str, &[usize], &str); 48] = [
    (
        "goal \"p\"",
        &[10, 5],
        "f:1:6: no token begins here, or a comment or attribute that isn't closed (refused: 10 5)\ngoal \"p\"\n     ^\n",
    ),
    (
        "a\n\tb 1\n",
        &[11, 5],
        "f:2:4: integer literal above 2^127 - 1 (refused: 11 5)\n\tb 1\n\t  ^\n",
    ),
    (
        "theory T\n  goal end\n",
        &[12, 3],
        "f:2:8: syntax error (refused: 12 3)\n  goal end\n       ^\n",
    ),
    // after the last token, where the text ends too early
    (
        "theory T\n\n",
        &[12, 2],
        "f:1:9: syntax error (refused: 12 2)\ntheory T\n        ^\n",
    ),
    ("", &[12, 0], "f:1:1: syntax error (refused: 12 0)\n\n^\n"),
    (
        "a ((b",
        &[13, 3],
        "f:1:5: nested deeper than 200 (refused: 13 3)\na ((b\n    ^\n",
    ),
    (
        "theory T let x",
        &[14, 2],
        "f:1:10: declaration of a program (refused: 14 2)\ntheory T let x\n         ^\n",
    ),
    (
        "abc",
        &[15, 0],
        "f: file longer than 67,108,864 bytes (refused: 15 0)\n",
    ),
    (
        "theory T\n  goal g: p /\\ r\nend",
        &[20, 1, 7],
        "f:2:16: unknown name (refused: 20 1 7)\n  goal g: p /\\ r\n               ^\n",
    ),
    // a comment is no token, a character may have several bytes, a control character is shown as a blank
    (
        "(* \u{e9}\u{20ac} *) p\rq",
        &[20, 1, 1],
        "f:1:12: unknown name (refused: 20 1 1)\n(* \u{e9}\u{20ac} *) p q\n           ^\n",
    ),
    // no such token, or no tokens at all
    ("p", &[20, 1, 2], "f: unknown name (refused: 20 1 2)\n"),
    ("p \"", &[20, 1, 0], "f: unknown name (refused: 20 1 0)\n"),
    (
        "p p",
        &[21, 0, 1],
        "f:1:3: name that is taken (refused: 21 0 1)\np p\n  ^\n",
    ),
    (
        "p",
        &[22, 1, 0],
        "f:1:1: formula for a term, term for a formula, no field, or alternative with other names (refused: 22 1 0)\np\n^\n",
    ),
    (
        "p",
        &[23, 1, 0],
        "f:1:1: wrong number of arguments (refused: 23 1 0)\np\n^\n",
    ),
    (
        "p",
        &[31, 1, 0],
        "f:1:1: type that is left open (refused: 31 1 0)\np\n^\n",
    ),
    (
        "p",
        &[32, 1, 0],
        "f:1:1: match that isn't exhaustive (refused: 32 1 0)\np\n^\n",
    ),
    (
        "p",
        &[40, 1, 0],
        "f:1:1: clone element that doesn't fit (refused: 40 1 0)\np\n^\n",
    ),
    (
        "printer \"smtv2\" foo",
        &[50, 1, 16],
        "f:1:17: syntax error (refused: 50 1 16)\nprinter \"smtv2\" foo\n                ^\n",
    ),
    // the end of the file, and a byte after it
    (
        "a\nb",
        &[50, 1, 3],
        "f:2:2: syntax error (refused: 50 1 3)\nb\n ^\n",
    ),
    ("a\nb", &[50, 1, 4], "f: syntax error (refused: 50 1 4)\n"),
    (
        "a",
        &[51, 1, 0],
        "f:1:1: unknown transformation (refused: 51 1 0)\na\n^\n",
    ),
    (
        "a",
        &[52, 1, 0],
        "f:1:1: template that lacks an argument, or has one twice (refused: 52 1 0)\na\n^\n",
    ),
    (
        "a",
        &[53, 1, 0],
        "f:1:1: unknown symbol (refused: 53 1 0)\na\n^\n",
    ),
    (
        "a",
        &[54, 1, 0],
        "f:1:1: import of a file that is being read, or too many imports (refused: 54 1 0)\na\n^\n",
    ),
    (
        "a",
        &[55, 1, 0],
        "f:1:1: unknown printer, or none (refused: 55 1 0)\na\n^\n",
    ),
    ("abc", &[60], "f: no such theory (refused: 60)\n"),
    ("abc", &[61], "f: no such goal (refused: 61)\n"),
    (
        "abc",
        &[90, 2, 1],
        "f: another number of refutations than of problems (refused: 90 2 1)\n",
    ),
    (
        "e sym p_1\ne not 00\n",
        &[91, 1, 2],
        "f:2: wrong line; after the last line: the steps don't end in the start (refused: 91 1 2)\ne not 00\n",
    ),
    (
        "e sym p_1\n",
        &[91, 2, 2],
        "f:2: wrong line; after the last line: the steps don't end in the start (refused: 91 2 2)\n",
    ),
    // no code, no such code, other numbers
    ("a", &[], ""),
    ("a", &[9, 0], ""),
    ("a", &[29, 1, 0], ""),
    ("a", &[10], ""),
    ("a", &[20, 5], ""),
    ("a", &[61, 0], ""),
    (
        "abc",
        &[30, 1, 0],
        "f: types that clash (refused: 30 1 0)\n",
    ),
    (
        "abc",
        &[33, 1, 0],
        "f: clause of another form (refused: 33 1 0)\n",
    ),
    (
        "abc",
        &[34, 1, 0],
        "f: predicate of the group where none is allowed (refused: 34 1 0)\n",
    ),
    (
        "abc",
        &[35, 1],
        "f: recursion that doesn't descend (refused: 35 1)\n",
    ),
    (
        "abc",
        &[36, 1],
        "f: recursive group that is too wide (refused: 36 1)\n",
    ),
    (
        "abc",
        &[37, 1],
        "f: type without a finite value (refused: 37 1)\n",
    ),
    (
        "abc",
        &[70, 1, 0],
        "f: declaration that the stage doesn't take (refused: 70 1 0)\n",
    ),
    (
        "abc",
        &[71, 1],
        "f: task that is too large after the stage (refused: 71 1)\n",
    ),
    (
        "abc",
        &[80, 1, 0],
        "f: polymorphic proposition (refused: 80 1 0)\n",
    ),
    (
        "abc",
        &[81, 1, 0],
        "f: declaration or form that the printer lacks (refused: 81 1 0)\n",
    ),
    (
        "abc",
        &[82, 1, 0],
        "f: symbol without a template (refused: 82 1 0)\n",
    ),
];

#[test]
fn messages(rt: HostRuntime) {
    for (text, fault, wanted) in &MESSAGES {
        match explain(rt.alloc(), "f", text.as_bytes(), *fault).expect(&rt, "out of memory") {
            Some(message) => assert_eq!(rt; message.as_slice(), wanted.as_bytes()),
            None => assert_eq!(rt; "", *wanted),
        }
    }
}
