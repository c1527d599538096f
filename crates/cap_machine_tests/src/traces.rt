//! Worked traces and their reports.

/// Traces without a successful exec or closefrom, and the report of each in both profiles.
pub static REPORTS: [(&[u8], &[u8]); 43] = [
    (b"", b"findings 0\n"),
    (
        b"100 @start(0,3)\n100 cap_rights_limit(0,CAP_READ) RET 0\n100 write(0) RET 5",
        b"3 100 write missing 0 CAP_WRITE\nfindings 1\n",
    ),
    (b"100 write(7) RET 5", b"findings 0\n"),
    (
        b"100 @start(0,3)\n100 cap_rights_limit(0,CAP_READ) RET 0\n100 cap_rights_limit(0,CAP_READ|CAP_WRITE) RET 0\n100 write(0) RET 1",
        b"3 100 cap_rights_limit expanded 0 CAP_WRITE\n4 100 write missing 0 CAP_WRITE\nfindings 2\n",
    ),
    (
        b"100 @start(0,3)\n100 read(0) RET -1 errno 93",
        b"2 100 read refusal\nfindings 1\n",
    ),
    (
        b"100 @start(0,3)\n100 cap_rights_limit(3,CAP_PREAD) RET 0\n100 pwrite(3) RET 1",
        b"3 100 pwrite missing 3 CAP_WRITE\nfindings 1\n",
    ),
    (
        b"100 @start(0,3)\n100 dup(3) RET 4\n100 cap_rights_limit(3,CAP_READ) RET 0\n100 write(4) RET 1\n100 write(3) RET 1",
        b"5 100 write missing 3 CAP_WRITE\nfindings 1\n",
    ),
    (
        b"100 @start(0,3)\n100 cap_rights_limit(3,CAP_READ) RET 0\n100 fork() RET 101\n100 close(3) RET 0\n101 write(3) RET 1",
        b"5 101 write missing 3 CAP_WRITE\nfindings 1\n",
    ),
    (
        b"100 @start(0,3)\n100 cap_rights_limit(3,CAP_READ) RET 0\n100 fork() RET 101\n100 close(3) RET 0\n101 write(3) RET 1\n101 @exit()\n100 open(\"a\",O_RDONLY) RET 3\n100 fork() RET 101\n101 write(3) RET 1",
        b"5 101 write missing 3 CAP_WRITE\nfindings 1\n",
    ),
    (
        b"100 @start(0)\n100 socket(0) RET 40\n100 socket(0) RET 300\n100 socket(0) RET 200000\n200 @start(0)\n200 fork() RET 100\n100 close(40) RET 0\n100 socket(0) RET 300\n100 read(300) RET 1\n100 read(200000) RET 1",
        b"7 100 close closed 40\n10 100 read closed 200000\nfindings 2\n",
    ),
    (
        b"100 @start(0,3)\n100 cap_enter() RET 0\n100 open(\"/etc/x\",O_RDONLY) RET 5\n100 read(5) RET 1",
        b"3 100 open forbidden\nfindings 1\n",
    ),
    (
        b"100 @start(0,3)\n100 open(\"x\",O_RDONLY) RET -1 errno 94",
        b"2 100 open moderefusal\nfindings 1\n",
    ),
    (
        b"100 @start(0,3)\n100 cap_enter() RET 0\n100 open(\"x\",O_RDONLY) RET -1 errno 94",
        b"findings 0\n",
    ),
    (
        b"100 @start(0,3)\n100 cap_rights_limit(3,CAP_LOOKUP|CAP_RENAMEAT_SOURCE) RET 0\n100 renameat(3,\"a\",9,\"b\") RET 0",
        b"3 100 renameat closed 9\nfindings 1\n",
    ),
    (
        b"100 @start(0,3)\n100 @foreign(9)\n100 cap_rights_limit(3,CAP_LOOKUP|CAP_RENAMEAT_SOURCE) RET 0\n100 renameat(3,\"a\",9,\"b\") RET 0",
        b"findings 0\n",
    ),
    (
        b"100 @start(0,3)\n100 cap_rights_limit(3,CAP_LOOKUP) RET 0\n100 renameat(3,\"a\",9,\"b\") RET 0",
        b"3 100 renameat missing 3 CAP_RENAMEAT_SOURCE\n3 100 renameat closed 9\nfindings 2\n",
    ),
    (
        b"100 @start(0,3)\n100 cap_rights_limit(3,CAP_LOOKUP|CAP_READ) RET 0\n100 openat(3,\"a\",O_RDONLY) RET 4\n100 write(4) RET 1\n100 openat(3,\"../a\",O_RDONLY) RET -1 errno 93",
        b"4 100 write missing 4 CAP_WRITE\nfindings 1\n",
    ),
    (
        b"100 cap_rights_limit(6,CAP_READ|CAP_SEEK) RET 0\n100 cap_rights_limit(6,CAP_READ) RET 0\n100 lseek(6) RET 0",
        b"3 100 lseek missing 6 CAP_SEEK\nfindings 1\n",
    ),
    (
        b"100 @start(0,3)\n100 ioctl(0) RET -1 errno 93\n100 cap_ioctls_limit(3) RET 0\n100 openat(3,\"a\",O_RDONLY) RET -1 errno 93",
        b"findings 0\n",
    ),
    (
        b"100 @start(0,3)\n100 ioctl(0) RET -1 errno 93\n100 openat(3,\"a\",O_RDONLY) RET -1 errno 93",
        b"3 100 openat refusal\nfindings 1\n",
    ),
    (
        b"100 @start(0,3)\n100 cap_rights_limit(3,CAP_MMAP_R) RET 0\n100 mmap(3,PROT_READ|PROT_WRITE,MAP_PRIVATE) RET 4096\n100 mmap(3,PROT_READ|PROT_EXEC,MAP_SHARED) RET 8192",
        b"4 100 mmap missing 3 CAP_MMAP_X\nfindings 1\n",
    ),
    (
        b"100 cap_rights_limit(6,CAP_READ) RET 0\n100 write(6) RET 1",
        b"2 100 write missing 6 CAP_WRITE\nfindings 1\n",
    ),
    (
        b"100 @start(0,3)\n100 cap_rights_limit(0,CAP_WRITE) RET 0\n100 sendto(0,DEST) RET 3",
        b"3 100 sendto missing 0 CAP_CONNECT\nfindings 1\n",
    ),
    (
        b"100 @start(0,3)\n100 cap_rights_limit(3,CAP_FEXECVE) RET 0\n100 fexecve(3) RET -1 errno 93",
        b"findings 0\n",
    ),
    (
        b"100 @start(0,3)\n100 foo() RET -1 errno 94",
        b"2 100 foo moderefusal\nfindings 1\n",
    ),
    (
        b"100 @start(0,3)\n100 cap_enter() RET 0\n100 foo() RET -1 errno 94\n100 read(0) RET -1 errno 94",
        b"4 100 read moderefusal\nfindings 1\n",
    ),
    (
        b"100 @start(0,3)\n100 cap_rights_limit(3,ALL) RET -1 errno 93",
        b"2 100 cap_rights_limit refusal\nfindings 1\n",
    ),
    (
        b"100 @start(0,3)\n100 foo() RET -1 errno 93\n100 fcntl(0,F_SETFD,0) RET -1 errno 93",
        b"findings 0\n",
    ),
    (
        b"100 @start(0,3)\n100 cap_rights_limit(3,CAP_LOOKUP|CAP_WRITE) RET 0\n100 openat(3,\"a\",O_WRONLY) RET 4",
        b"findings 0\n",
    ),
    (
        b"100 @start(0,3)\n100 cap_enter() RET 0\n100 openat(3,\"a\",O_RDONLY) RET -1 errno 93",
        b"findings 0\n",
    ),
    (
        b"100 @start(0,3)\n100 close(3) RET 0\n100 close(3) RET 0",
        b"3 100 close closed 3\nfindings 1\n",
    ),
    (
        b"100 @start(0,3)\n100 close(3) RET -1 errno 4\n100 cap_rights_limit(3,ALL) RET 0\n100 openat(3,\"a\",O_RDONLY) RET -1 errno 93",
        b"findings 0\n",
    ),
    (
        b"100 @start(0,3)\n100 cap_rights_limit(3,CAP_READ) RET 0\n100 close(3) RET -1 errno 9\n100 write(3) RET 1",
        b"4 100 write missing 3 CAP_WRITE\nfindings 1\n",
    ),
    (
        b"100 @start(0,3)\n100 cap_rights_limit(3,CAP_READ) RET 0\n100 close(3) RET -1 errno 4\n100 write(3) RET 1",
        b"findings 0\n",
    ),
    (
        b"100 @start(0,3)\n100 cap_enter() RET 0\n100 openat(3,\"/a\",O_RDONLY) RET 4\n100 write(4) RET 1",
        b"3 100 openat forbidden\nfindings 1\n",
    ),
    (
        b"100 @start(0,3)\n100 pdfork() RET 101,5\n101 read(5) RET 1\n101 read(6) RET 1",
        b"4 101 read closed 6\nfindings 1\n",
    ),
    (
        b"100 @start(0,3)\n100 fork() RET 100\n100 read(6) RET 1",
        b"3 100 read closed 6\nfindings 1\n",
    ),
    (
        b"100 @start(0,3)\n100 close(0) RET -1 errno 93\n100 cap_rights_limit(3,NONE) RET -1 errno 93",
        b"2 100 close refusal\n3 100 cap_rights_limit refusal\nfindings 2\n",
    ),
    (
        b"100 @start(0,3)\n100 renameat(9,\"a\",9,\"b\") RET 0",
        b"2 100 renameat closed 9\n2 100 renameat closed 9\nfindings 2\n",
    ),
    (
        b"100 @start(0,3)\n100 cap_rights_limit(3,CAP_READ) RET 0\n100 renameat(3,\"/a\",0,\"b\") RET -1 errno 93",
        b"3 100 renameat refusal\nfindings 1\n",
    ),
    (
        b"100 @start(0,3)\n100 cap_rights_limit(3,CAP_LOOKUP) RET 0\n100 openat(3,\"a\",O_PATH|O_CREAT|O_SYNC) RET 4",
        b"findings 0\n",
    ),
    (
        b"100 @start(0,3)\n100 openat(3,\"a\",O_RDONLY|AT_REMOVEDIR) RET -1 errno 93\n100 unlinkat(3,\"a\",AT_REMOVEDIR) RET -1 errno 93\n100 unlinkat(3,\"a\",O_RDONLY) RET -1 errno 93",
        b"3 100 unlinkat refusal\nfindings 1\n",
    ),
    (
        b"100 @start(0,3)\n100 pdfork() RET 100,3\n100 read(3) RET 1\n100 read(0) RET 1\n100 read(6) RET 1",
        b"5 100 read closed 6\nfindings 1\n",
    ),
];

/// Traces, and the report of each in profile 1 and in profile 2.
pub static BY_PROFILE: [(&[u8], &[u8], &[u8]); 16] = [
    (
        b"100 @start(0,3)\n100 open(\"a\",O_RDONLY|O_CLOEXEC) RET 5\n100 execve(\"/bin/x\") RET 0\n100 read(5) RET 1",
        b"findings 0\n",
        b"4 100 read closed 5\nfindings 1\n",
    ),
    (
        b"100 @start(0,3)\n100 cap_enter() RET 0\n100 execve(\"/bin/x\") RET 0\n100 open(\"a\",O_RDONLY) RET -1 errno 94\n100 read(7) RET 1",
        b"3 100 execve forbidden\nfindings 1\n",
        b"3 100 execve forbidden\n5 100 read closed 7\nfindings 2\n",
    ),
    (
        b"100 @start(0,3)\n100 open(\"a\",O_RDONLY) RET 5\n100 cap_rights_limit(5,CAP_READ) RET 0\n100 execve(\"/bin/x\") RET 0\n100 write(5) RET 1",
        b"findings 0\n",
        b"5 100 write missing 5 CAP_WRITE\nfindings 1\n",
    ),
    (
        b"100 @start(0,3)\n100 open(\"a\",O_RDONLY) RET 5\n100 fcntl(5,F_SETFD,FD_CLOEXEC) RET 0\n100 dup(5) RET 6\n100 execve(\"/bin/x\") RET 0\n100 read(5) RET 1\n100 read(6) RET 1",
        b"findings 0\n",
        b"6 100 read closed 5\nfindings 1\n",
    ),
    (
        b"100 @start(0,3)\n100 cap_rights_limit(0,CAP_READ) RET 0\n100 execve(\"/bin/x\") RET 0\n100 write(0) RET 1",
        b"findings 0\n",
        b"findings 0\n",
    ),
    (
        b"100 @start(0,3)\n100 open(\"a\",O_RDONLY|O_CLOEXEC) RET 5\n100 fork() RET 101\n101 execve(\"/bin/x\") RET 0\n101 read(5) RET 1\n100 read(5) RET 1",
        b"findings 0\n",
        b"5 101 read closed 5\nfindings 1\n",
    ),
    (
        b"100 @start(0,3)\n100 open(\"a\",O_RDONLY|O_CLOEXEC) RET 5\n100 dup2(5,5) RET 5\n100 execve(\"/bin/x\") RET 0\n100 read(5) RET 1",
        b"findings 0\n",
        b"5 100 read closed 5\nfindings 1\n",
    ),
    (
        b"100 @start(0,3)\n100 closefrom(3) RET 0\n100 read(3) RET 1\n100 read(0) RET 1",
        b"findings 0\n",
        b"3 100 read closed 3\nfindings 1\n",
    ),
    (
        b"100 closefrom(3) RET 0\n100 read(3) RET 1\n100 read(2) RET 1",
        b"findings 0\n",
        b"2 100 read closed 3\nfindings 1\n",
    ),
    (
        b"100 closefrom(3) RET 0\n100 fork() RET 101\n100 open(\"a\",O_RDONLY) RET 3\n101 read(3) RET 1\n100 read(3) RET 1",
        b"findings 0\n",
        b"4 101 read closed 3\nfindings 1\n",
    ),
    (
        b"100 @start(0,3)\n100 closefrom(0) RET -1 errno 9\n100 read(3) RET 1",
        b"findings 0\n",
        b"findings 0\n",
    ),
    (
        b"100 closefrom(1048575) RET 0\n100 read(1048575) RET 1\n100 read(1048574) RET 1",
        b"findings 0\n",
        b"2 100 read closed 1048575\nfindings 1\n",
    ),
    (
        b"100 @start(0,3)\n100 closefrom(3) RET 0\n100 read(3) RET -1 errno 93",
        b"3 100 read refusal\nfindings 1\n",
        b"findings 0\n",
    ),
    (
        b"100 @start(0,3)\n100 pipe2(O_CLOEXEC) RET 4,5\n100 pipe2(SOCK_CLOEXEC) RET 6,7\n100 socket(SOCK_CLOEXEC) RET 8\n100 socketpair(O_CLOEXEC) RET 9,10\n100 pipe() RET 11,12\n100 openat(AT_FDCWD,\"a\",O_RDONLY|O_CLOEXEC) RET 13\n100 execve(\"/bin/x\") RET 0\n100 read(4) RET 1\n100 read(6) RET -1 errno 93\n100 read(8) RET 1\n100 read(9) RET -1 errno 93\n100 read(12) RET -1 errno 93\n100 read(13) RET 1",
        b"findings 0\n",
        b"9 100 read closed 4\n10 100 read refusal\n11 100 read closed 8\n12 100 read refusal\n13 100 read refusal\n14 100 read closed 13\nfindings 6\n",
    ),
    (
        b"100 @start(0,3)\n100 open(\"a\",O_RDONLY|O_CLOEXEC) RET 4\n100 fcntl(4,F_DUPFD) RET 5\n100 fcntl(5,F_DUPFD_CLOEXEC) RET 6\n100 fcntl(4,F_DUP2FD,7) RET 7\n100 fcntl(7,F_DUP2FD_CLOEXEC,8) RET 8\n100 fcntl(8,F_DUP2FD_CLOEXEC,8) RET 8\n100 fcntl(4,F_DUP2FD,4) RET 4\n100 dup2(4,9) RET 9\n100 execve(\"/bin/x\") RET 0\n100 read(4) RET 1\n100 read(5) RET -1 errno 93\n100 read(6) RET 1\n100 read(7) RET -1 errno 93\n100 read(8) RET 1\n100 read(9) RET -1 errno 93",
        b"findings 0\n",
        b"11 100 read closed 4\n12 100 read refusal\n13 100 read closed 6\n14 100 read refusal\n16 100 read refusal\nfindings 5\n",
    ),
    (
        b"100 @start(0,3)\n100 fcntl(5,F_SETFD,0) RET 0\n100 read(5) RET 1\n100 fcntl(6,F_SETFD,FD_OTHER) RET 0\n100 read(6) RET 1\n100 open(\"a\",O_RDONLY|O_CLOEXEC) RET 7\n100 fcntl(7,F_SETFD,0) RET 0\n100 execve(\"/bin/x\") RET 0\n100 read(7) RET -1 errno 93",
        b"2 100 fcntl closed 5\n3 100 read closed 5\n4 100 fcntl closed 6\nfindings 3\n",
        b"2 100 fcntl closed 5\n3 100 read closed 5\n4 100 fcntl closed 6\n9 100 read refusal\nfindings 4\n",
    ),
];
