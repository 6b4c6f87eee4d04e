// What `--help` prints, and the lines that say how each word is used.

pub(crate) const USAGE: &str =
    "usage: cedar_cli [--no-types] check | test | explain | authorize | evaluate | session .., or cedar_cli --help";

pub(crate) const USAGE_OF_CHECK: &str = "usage: cedar_cli check [--each] [--json] [FILE..]";

pub(crate) const USAGE_OF_TEST: &str =
    "usage: cedar_cli test [--only NAME].. [--list] [--quiet] [--junit FILE] [--coverage] [--json] FILE..";

pub(crate) const USAGE_OF_EXPLAIN: &str =
    "usage: cedar_cli explain [--json] POLICIES ENTITIES QUESTION, or cedar_cli explain [--json] SCRIPT:LINE";

pub(crate) const USAGE_OF_AUTHORIZE: &str =
    r#"usage: cedar_cli authorize (-p FILE).. [-k FILE] [--entities FILE].. REQUEST [-v], or cedar_cli authorize --json
       REQUEST is --request-json FILE, or --principal ENTITY --action ENTITY --resource ENTITY [-c FILE]"#;

pub(crate) const USAGE_OF_EVALUATE: &str =
    "usage: cedar_cli evaluate [--entities FILE].. [--request-json FILE] EXPRESSION";

pub(crate) const USAGE_OF_SESSION: &str = "usage: cedar_cli session [--json]";

pub(crate) const WHOLE: &str =
    r#"cedar_cli check [FILE..]   checks texts of policies: files, or standard input
cedar_cli test FILE..      runs the tests of scripts
cedar_cli explain POLICIES ENTITIES QUESTION
                           tells what decides a question: three files
cedar_cli explain SCRIPT:LINE
                           tells what decides the question at a line of a script
cedar_cli authorize -p FILE ..
                           answers a request: policies as Cedar writes them, entities as JSON
cedar_cli authorize --json answers a call of isAuthorized, as Cedar's WebAssembly takes it
cedar_cli evaluate EXPRESSION
                           evaluates an expression
cedar_cli session [--json] answers frames on standard input, as the program cedar_session does, or
                           lines of JSON
cedar_cli help WORD        tells of a word and its options, as cedar_cli WORD --help does

-h, --help     prints this page
-V, --version  prints the version
--no-types     goes without the types decimal, ipaddr, datetime and duration
--             ends the options
-              stands for standard input where a file is named

Where the words behind the name ask for nothing the exit status is 64, and 1 behind authorize and
evaluate."#;

pub(crate) const CHECK: &str = r#"cedar_cli check [--each] [--json] [FILE..]

Checks texts of policies: files, or standard input. They are loaded in turn, by one session. Of a
text that is fine a line tells of each policy where it stands, and its id. Of any other lines tell
each fault with its place.

--each         checks each text by itself
--json         writes an object of JSON, as docs/cli.schema.json has it
--no-types     goes without the types decimal, ipaddr, datetime and duration
-h, --help     prints this page

exit status
  0  each text is fine
  1  some text is refused
  3  a file couldn't be read, or what is told couldn't be written
  4  there wasn't enough memory
 64  the words ask for nothing"#;

pub(crate) const TEST: &str = r#"cedar_cli test [OPTIONS] FILE..

Runs the tests of scripts. A script has a command on a line: a verb and a body, or `<` and a file.
Lines that begin with a space go on with the body. `=> WORDS` says what must answer the command
before it, and `test NAME` begins a test. Each is told to be ok or to FAIL. Of several scripts each
line names its own.

--only NAME    runs the tests of this name alone; may stand several times
--list         prints the names of the tests, and runs none
-q, --quiet    tells of tests that fail alone
--junit FILE   writes how the tests went into a file too, as JUnit does
--coverage     tells of each policy that no question satisfied, or that each satisfied
--json         writes an object of JSON, as docs/cli.schema.json has it
--no-types     goes without the types decimal, ipaddr, datetime and duration
-h, --help     prints this page

exit status
  0  each test passed, and there is one
  1  some test failed, or there is none
  2  a script has a fault
  3  a file couldn't be read or written, or what is told couldn't be written
  4  there wasn't enough memory
 64  the words ask for nothing"#;

pub(crate) const EXPLAIN: &str = r#"cedar_cli explain [--json] POLICIES ENTITIES QUESTION
cedar_cli explain [--json] SCRIPT:LINE

Tells what decides a question: of three files, or the one that begins at a line of a script, behind
the commands before it. ENTITIES are written as `put` takes them, and the QUESTION as `ask` does.
First stands the answer, then how each policy stands, and last the names to tell.

--json         writes an object of JSON, as docs/cli.schema.json has it
--no-types     goes without the types decimal, ipaddr, datetime and duration
-h, --help     prints this page

exit status
  0  allow
  1  some text is refused, or no question begins at the line
  2  deny
  3  open
  4  there wasn't enough memory
  5  a file couldn't be read, or what is told couldn't be written
 64  the words ask for nothing"#;

pub(crate) const AUTHORIZE: &str =
    r#"cedar_cli authorize (-p FILE).. [-k FILE] [--entities FILE].. REQUEST [-v]
cedar_cli authorize --json

Answers a request by policies and entities. Written is ALLOW or DENY, and a line for each policy
that errs. A policy is told by its annotation @id, and else as policy0, policy1, .. by its place.
The REQUEST is a file, or its parts: --principal, --action, --resource and perhaps a context.

-p, --policies FILE    policies and templates as Cedar writes them; may stand several times
-k, --links FILE       links of templates, as JSON: a list of template_id, link_id and args
--entities FILE        entities, as JSON; may stand several times
--request-json FILE    the request, as JSON: principal, action, resource and context
-l, --principal ENTITY the principal, as User::"alice"
-a, --action ENTITY    the action
-r, --resource ENTITY  the resource
-c, --context FILE     the context, as JSON; where it is left out, an empty one
-v, --verbose          writes the policies that are the reason, too
--json                 takes a call of isAuthorized on standard input, as Cedar's WebAssembly does,
                       and answers it as that does; docs/JSON.md has both
--no-types             goes without the types decimal, ipaddr, datetime and duration
-h, --help             prints this page

exit status
  0  allow
  1  some text is refused, a call fails, or the words ask for nothing
  2  deny
  3  open: the decision waits for what is unknown
  4  there wasn't enough memory
  5  a file couldn't be read, or what is told couldn't be written"#;

pub(crate) const EVALUATE: &str =
    r#"cedar_cli evaluate [--entities FILE].. [--request-json FILE] EXPRESSION

Evaluates an expression as a policy's condition may have it, and writes its value as Cedar does.

--entities FILE      entities, as JSON; may stand several times
--request-json FILE  the request, as JSON; where it is left out, principal, action, resource and
                     context are unknown
--                   ends the options: an expression that begins with a minus sign stands behind it
--no-types           goes without the types decimal, ipaddr, datetime and duration
-h, --help           prints this page

exit status
  0  it has a value
  1  some text is refused, the expression errs, or the words ask for nothing
  4  there wasn't enough memory
  5  a file couldn't be read, or what is told couldn't be written"#;

pub(crate) const SESSION: &str = r#"cedar_cli session [--json]

Answers frames on standard input, as the program cedar_session does. A frame is a verb, a space, the
length of a body in bytes, a line feed, the body and a line feed. Each is answered by a line, which
is out before the next one is read.

--json         answers lines of JSON by lines of JSON: an object of a command and its body, as
               {"load": "permit(principal, action, resource);"}; docs/JSON.md has the others
--no-types     goes without the types decimal, ipaddr, datetime and duration
-h, --help     prints this page

exit status
  0  the input ended behind a whole frame, or a line
  2  bytes were no frame
  3  the input couldn't be read, or a line couldn't be written
  4  there wasn't enough memory to begin, or for a line of JSON
 64  the words ask for nothing"#;
