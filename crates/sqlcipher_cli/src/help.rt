// What `--help` and `--version` print.

/// The text of `--help`.
pub const HELP: &str = "\
sqlcipher-tool checks SQLCipher and plain SQLite database files, prints their rows,
plays back the journal that a stop has left, sets two numbers of their header,
changes their key, writes their database anew in another version, encrypted or
plain, and plays scripts of sessions that read and change their pages. It writes
nothing else to them. It also makes databases of any number of rows.

usage: sqlcipher-tool FILE COMMAND [PROFILE [PROFILE | N | FIELD N | NAME LOW HIGH]] < KEYS
       sqlcipher-tool FILE play PROFILE < SCRIPT
       sqlcipher-tool --help | -h | help | --version

commands
  tags PROFILE    check the tag of every page; prints a line for each page whose
                  tag does not hold, or `tags hold: N pages`
  header PROFILE  decrypt page 1 and print the fields of the database header
  verify PROFILE  check the freelist, the tags of the pages in use, the schema and
                  every tree; prints what is wrong, or `ok:` and the counts
  export PROFILE  check the whole database, and print every row and entry as text,
                  which sqlcipher-tool-export-to-sql turns into SQL
  agree PROFILE   check the whole database, and compare each index with its table:
                  whether each row has one entry, and each entry a row. Prints a
                  line for each way in which an index differs, one for each that is
                  not checked and why, and then `ok: I indexes, E entries, N not
                  checked` or `indexes differ: D of I`. `verify` does not look at
                  this; values, order and UNIQUE are not compared
  salvage PROFILE print the rows of a damaged file: those of every page that can be
                  read, whatever became of the others, and which pages and rows
                  can't be. Rows that were deleted may be among them.
                  sqlcipher-tool-salvage-to-sql turns the text into SQL
  find PROFILE NAME LOW HIGH
                  print the rows of the table NAME with rowids from LOW to HIGH, as
                  `export` does, and `found: R rows`. It reads the schema and the
                  pages that lead to these rows, and checks no other page. NAME is
                  compared byte for byte
  probe           find the profile whose key fits; prints `profile PROFILE`
  recover PROFILE play the journal beside the file back into it and remove it;
                  prints `played: N`, `cold` or `nothing`, and takes no key
                  (every command but `probe` and `make` recovers first)
  settle PROFILE  check a file in WAL mode or with auto-vacuum, with its log,
                  FILE-wal, as `verify` does; lay the log into it, remove FILE-wal
                  and FILE-shm, and take the file out of WAL mode and auto-vacuum,
                  so that every command serves it. Prints
                  `settled: L log frames, M map pages`. A stop at any moment leaves
                  files that open to the same, and `settle` again goes on
  stamp PROFILE user-version N
  stamp PROFILE application-id N
                  set this number of the database header, at most 4294967295;
                  prints `stamped`. A stop at any moment leaves the old file or
                  the stamped one
  rekey PROFILE PROFILE
                  seal every page under another key, of a profile whose pages have
                  the same size and reserve (other rounds, 2 and 3, a plain header
                  or none); prints `rekeyed: N pages`. A stop at any moment leaves
                  the file under the old key or under the new one
  migrate PROFILE PROFILE
                  write the database anew in the second profile, under the second
                  key, and put it in the file's place; prints `migrated: N pages`.
                  From plain:SIZE it encrypts. To plain:SIZE it decrypts: every row
                  is then in the clear, and the old pages may stay on the device.
                  A stop at any moment leaves the old file or the new one.
                  The new one is FILE-migrated until it is done. What a stop leaves
                  there is of no use, and the next run removes it; any other file
                  of this name is refused, with status 4
  make PROFILE N  make a database of N rows, at most 4294967295, where there is
                  neither a file nor a journal; prints `made: N rows, B data bytes`.
                  A stop at any moment leaves no file or the whole one. It uses the
                  name FILE-migrated too
  play PROFILE    play the script on standard input: up to 16 sessions share the file
                  under SQLite's locks, step by step. It recovers the file, then reads
                  a line, makes its step and prints the answer, and so on to the end.
                  A stop at any moment leaves the commits so far, and that under way
                  whole or not at all

a script: a step a line, the words parted by one space. S is a session, 0 to 15, N a
page, 1 being the first, AT a place in it, from 0, BYTE a byte, 0 to 255; KEY is written
as a key line, and is left out with plain:SIZE. At most 100,000 lines of 1,100 bytes
  open S PROFILE KEY    begin the session under this key; the pages have the size and
                        the reserve of the command's PROFILE
  share S               take a shared lock, and look at the file and its key
  read S N AT           print `byte B`, as the session sees it
  reserve S             take the one lock of those who mean to write
  change S N AT BYTE    change this byte; only the session itself sees that so far
  rekey S PROFILE KEY   mean to seal every page under another key
  commit S              write it all; `busy`, and no new reader, while others share
  release S             let go of the lock, the changes and the new key
  stop                  end every session
  Answers: `done`, `byte B`, `busy` where another session's lock stands in the way,
  `misuse` where the session may not make this step now, or why the file, its key or
  a page is refused. A line that is no step ends the script with status 2; what was
  committed stays

who else has the file
  A command holds SQLite's lock on it from start to end: shared where it only
  reads and no journal is beside the file, else exclusive. Where others have it
  for two seconds, where the file or its journal is replaced or changed
  meanwhile, or where FILE-wal has a byte and PROFILE no `:wal`, the status is 4.
  Where the lock can't be had, others are only looked for, and standard error says
  so. `probe` and `make` take none. `probe` answers beside another program and
  beside a log, and says that they are there. A commit of `play` does not raise
  the header's change counter: a program that is connected may go on with the
  pages that it has read

profiles
  1, 2, 3, 4      the version of SQLCipher that wrote the file (1 has no tags), and
                  behind it, in any order and each once, what differs from that
                  version: 3:4096, 3:4096:rounds=1, 4:rounds=4000:hmac=sha1
    :SIZE         bytes in a page: 1024, 2048, 4096, 8192, 16384, 32768 or 65536
    :rounds=N     rounds of PBKDF2 for a passphrase, 1 to 2147483647
    :kdf=HASH     the hash of PBKDF2: sha1, sha256 or sha512
    :hmac=HASH    the hash of the tags; :hmac=off where pages have none
    :plain-header=N
                  the first N bytes are in the clear, 16 to 96 in steps of 16, and
                  hold no salt, so the key line has it. No tag covers them
    :key=hex      the key line is the passphrase in hex digits
                  Under other settings than the file's the key is refused. `probe`
                  tries 4 with each size, 3, 2 and 1 with their own size and 4096,
                  3:4096:rounds=1 and 4:rounds=4000:hmac=sha1, and no others. To a
                  raw key the rounds do not matter: it names the first that fits
  plain:SIZE      a plain SQLite file with pages of SIZE bytes: plain:512 to
                  plain:65536, as plain:4096. It has no key and no tags, so `tags`
                  and `rekey` refuse it. `header plain:4096` names another size
  PROFILE:wal     as 4:wal or plain:4096:wal, for the commands that only read: the
                  file is read with its log, FILE-wal, as SQLite would open the
                  two, also in WAL mode or with auto-vacuum. Nothing is written,
                  and no journal played. Any other command refuses the word

standard input: a line for each version in the words, its key, the old one first;
one for `probe`; none for `recover` and none for plain:SIZE; for `play` its script
  x'HEX'          a raw key, 64 hex digits; with :plain-header=N 96, the salt last
  anything else   a passphrase, 1 to 1,024 bytes up to the line feed
  with :key=hex   a passphrase in hex digits, at most 512 bytes; with
                  :plain-header=N a comma and the salt's 32 digits behind it
`rekey`, `migrate` and `make` say which of the two the new key was taken as, and
look whether the input goes on after it
sqlcipher-tool-ask takes the same words and asks for the keys unseen, a new one twice;
to keep a key, give its line twice

exit status
  0  done
  1  the words are no command
  2  refused: the lines say why
  3  the key does not fit the file
  4  the disk failed, or somebody else is at the file. A command that changes or
     makes a file may be done or not, and so may the last commit of a script:
     standard error says what is known
  5  standard output failed. The same
  6  standard input failed
  7  the source of random bytes failed
  8  out of memory

Standard error says why and what to do, where the answer leaves that open. After a
stop or a fault, `recover` settles what the file is.

examples, on a file FILE
  sqlcipher-tool FILE probe < KEYFILE
  sqlcipher-tool FILE find 4 items 1 20 < KEYFILE
  sqlcipher-tool-ask FILE verify 4
  cat OLD_KEYFILE NEW_KEYFILE | sqlcipher-tool FILE rekey 4 4
  cat KEYFILE KEYFILE | sqlcipher-tool FILE migrate 3 4
  sqlcipher-tool FILE migrate plain:4096 4 < NEW_KEYFILE
  sqlcipher-tool FILE play 4 < SCRIPT
";

/// The text of `--version`.
pub const VERSION: &str = "sqlcipher-tool 0.1.0\n";
